// No function: a map as lent records, as definitions in specs/ and laws in proofs/, and the types that they name.
#![tactic(auto)]

pub mod map_records_own;
