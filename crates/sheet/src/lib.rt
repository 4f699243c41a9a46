// The frame sheet, checked whole. No exported function has a `requires`.
#![tactic(auto)]

mod answer;
mod faults;
mod heads;
mod records;
mod totals;

pub use answer::check;
pub use spec_sheet::sheet::Head;
