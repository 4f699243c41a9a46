// No function: a text taken byte by byte, the kinds of captions, calls and their counts, as definitions in specs/ and laws in proofs/, and the types that they name.
#![tactic(auto)]

pub mod session_counts;
