// Times known only roughly.
#![tactic(auto)]

mod judging;

pub use judging::{number, rough, told};
pub use spec_ask::ask_rough::Judged;
