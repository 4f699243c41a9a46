// No function: the captions of a text as rows of numbers, as definitions in specs/ and laws in proofs/, and the types that they name.
#![tactic(auto)]

pub mod caption_rows;
