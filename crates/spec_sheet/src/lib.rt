// No function: what a frame sheet says, and which sheets are refused, as definitions in specs/ and laws in proofs/, and the types that they name.
#![tactic(auto)]

pub mod order;
pub mod sheet;
