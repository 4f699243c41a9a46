// Blocks of 512 bytes, 128 little-endian words each. No exported function has a `requires`.
#![tactic(auto)]

mod words;

pub use words::{block_holds, word};
