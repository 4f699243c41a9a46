// 18 blocks with a number and a sum each: written, and read again. No exported function has a `requires`.
#![tactic(auto)]

mod reading;
mod writing;
mod zeros;

pub use reading::{unseal, unseal_first};
pub use writing::{blocks_for, seal, seal_first, words_bytes};
pub use zeros::all_zero;
