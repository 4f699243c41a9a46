// No function: JSON texts, as definitions in specs/ and laws in proofs/, and the types that they name.
#![tactic(auto)]

pub mod json;
