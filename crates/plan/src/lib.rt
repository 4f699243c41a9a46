// Ranges moved to sync frames. No exported function has a `requires`.
#![tactic(auto)]

mod crossing;
mod moves;
mod scan;

pub use crossing::overlap;
pub use moves::snap;
