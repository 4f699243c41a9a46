// No function: a session between two calls, its calls and what they answer, as definitions in specs/ and laws in proofs/, and the types that they name.
#![tactic(auto)]

pub mod session;
pub mod session_lines;
pub mod session_state;
pub mod session_text;
