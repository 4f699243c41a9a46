// The delay that loses least.
#![tactic(auto)]

mod choosing;
mod counting;
mod finding;
mod looking;
mod moving;
mod painting;
mod saving;

pub use finding::best_delay;
pub use spec_ask::ask_delay::Delay;
