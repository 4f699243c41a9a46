// No function: a session parked and taken up, as definitions in specs/ and laws in proofs/, and the types that they name.
#![tactic(auto)]

pub mod parking;
pub mod session_bytes;
