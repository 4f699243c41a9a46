// The captions of a text as rows: what `replay` is asked about them, printed.
#![tactic(auto)]

mod asking;
mod rows;

pub use asking::answer;
