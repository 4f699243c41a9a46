// No function: SRT and WebVTT: where times stand, what a block says and what is written, as definitions in specs/ and laws in proofs/, and the types that they name.
#![tactic(auto)]

pub mod block_cue;
pub mod block_timing;
