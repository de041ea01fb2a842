// What the machines of Clause 43 are made of: their states and timers, the transitions of their figures over enums and bools, the
// comparisons of 43.4.9, the ages of sends, and counts. No record of a port is known here.
#![tactic(auto)]

pub mod ages;
pub mod codes;
pub mod compare;
pub mod count;
pub mod entry;
pub mod mux;
pub mod periodic;
pub mod receive;
pub mod states;
