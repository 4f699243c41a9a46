// A whole text retimed at once. No exported function has a `requires`.
#![tactic(auto)]

mod running;
mod telling;

pub use telling::retime;
