// What needs more than one port: the selection rule, Ready, steps 3 to 6 (R4), and displaced ports.
// Everything works on the lent memory of a table that passed the range check; a record is loaded, stepped and stored, or left alone.
#![tactic(auto)]

mod displace;
mod ready;
mod select;
pub mod settle;
pub mod sweep;
