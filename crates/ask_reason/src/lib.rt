// Why a caption is kept or dropped.
#![tactic(auto)]

mod causes;
mod places;
mod telling;

pub use places::fate_code;
pub use spec_ask::ask_reason::Why;
pub use telling::reason;
