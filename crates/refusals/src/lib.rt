// Why a call is refused, as an enum, and the number that the table gives for it.
#![tactic(auto)]

mod refusal;

pub use refusal::{Refusal, number};
