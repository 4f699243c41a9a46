// No function: theorems over lists of calls and whole texts, as definitions in specs/ and laws in proofs/, and the types that they name.
#![tactic(auto)]

pub mod one_call;
