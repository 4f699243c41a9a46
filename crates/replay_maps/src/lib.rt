// The map of a case of `replay`, and the ops that ask by it.
#![tactic(auto)]

mod mapping;

pub use mapping::{asks, map_texts, print_made, texts, through_made};
