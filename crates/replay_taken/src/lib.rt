// A session taken up, as `replay` prints it.
#![tactic(auto)]

mod taken;

pub use taken::print_taken;
