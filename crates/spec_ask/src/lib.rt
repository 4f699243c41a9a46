// No function: requests 2.8 and 2.11 to 2.14: questions about a map, as definitions in specs/ and laws in proofs/, and the types that they name.
#![tactic(auto)]

pub mod ask_census;
pub mod ask_delay;
pub mod ask_edges;
pub mod ask_reason;
pub mod ask_rough;
