// The segment map: what a sheet and a trim list keep, and where it goes. No exported function has a `requires`.
#![tactic(auto)]

mod building;
mod faults;
mod sums;
mod whole;

pub use spec_map::segmap::Made;
pub use whole::make;
