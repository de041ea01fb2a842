// What a frame of the Slow Protocols is (Clause 43.4.2 and 43.5.3, Annex 43B): telling LACPDUs and Markers from what is
// refused, lending on the two blocks of an LACPDU where they stand, a block as a value, and writing LACPDUs and Markers.
#![tactic(auto)]

pub mod block;
pub mod class;
pub mod state;
pub mod wire;
