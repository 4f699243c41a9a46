// Patterns in a text.
#![tactic(auto)]

mod pattern;

pub use pattern::{equals, find, has, past, starts_with, up_to};
