// No function: one caption: its fate by the map, as definitions in specs/ and laws in proofs/, and the types that they name.
#![tactic(auto)]

pub mod caption_fate;
