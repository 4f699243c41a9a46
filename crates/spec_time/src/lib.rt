// No function: times of captions, as numbers and as text, as definitions in specs/ and laws in proofs/, and the types that they name.
#![tactic(auto)]

pub mod caption_stamp;
pub mod caption_time;
