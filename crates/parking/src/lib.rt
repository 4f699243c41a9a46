// A session parked, and taken up again. No exported function has a `requires`.
#![tactic(auto)]

mod reading;
mod storing;
mod taking;

pub use spec_parking::parking::{TakenIn, TakenUp};
pub use storing::{keep, park, restore};
pub use taking::{take_in, take_up};
