// What the programs `retime` and `retime_cases` share: the caption text of a folder, retimed by its sheet and its list.
#![tactic(auto)]

mod pass;
mod whole;

pub use whole::retime;
