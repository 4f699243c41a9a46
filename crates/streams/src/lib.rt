// Texts and numbers written to a writer. What a writer and a reader are left with, also after an error, is in specs/Left.
#![tactic(auto)]

mod writing;

pub use writing::{write_number, write_text};
