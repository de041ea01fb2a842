// One port: what is kept for it, as a value, and the machines of Clause 43 that work on it alone. Each step takes the record and
// hands the next one back.
#![tactic(auto)]

pub mod mux;
pub mod periodic;
pub mod receive;
pub mod record;
pub mod transmit;
