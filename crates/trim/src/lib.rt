// The trim list: read into ranges, or checked alone. No exported function has a `requires`.
#![tactic(auto)]

mod list;
mod token;

pub use list::{check, parse};
