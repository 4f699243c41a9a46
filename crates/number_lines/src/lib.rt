// Lines of numbers as the programs print them.
#![tactic(auto)]

mod printing;
mod writing;

pub use printing::print_line;
pub use writing::line;
