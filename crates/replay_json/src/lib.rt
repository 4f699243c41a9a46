// Maps as JSON texts, written and read, each answer printed: what `replay` asks of request 2.1.
#![tactic(auto)]

mod asking;
mod printing;

pub use asking::answer;
