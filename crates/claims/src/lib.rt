// Theorems about the definitions of the crates below, stated in specs/ and proved in proofs/: tables without monitors, and runs of the calls on them.
#![tactic(auto)]
