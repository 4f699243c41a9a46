// No function: the segment map, as definitions in specs/ and laws in proofs/, and the types that they name.
#![tactic(auto)]

pub mod segmap;
pub mod segment;
