// Questions about a map, each answered in a line on standard output: what `replay` asks beside document 01's calls.
#![tactic(auto)]

mod asking;
mod delays;
mod reasoning;
mod rising;
mod roughly;
mod starts;

pub use asking::answer;
