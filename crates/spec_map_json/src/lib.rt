// No function: a segment map written as JSON and read from it, as definitions in specs/ and laws in proofs/, and the types that they name.
#![tactic(auto)]

pub mod map_json_read;
pub mod map_json_write;
