// How many starts survive a cut.
#![tactic(auto)]

mod counting;
mod tally;

pub use counting::census;
pub use spec_ask::ask_census::StartCounts;
