// Why a port does not carry, and why two ports are apart, by the records as they stand. Nothing is written.
#![tactic(auto)]

pub mod apart;
pub mod cause;
