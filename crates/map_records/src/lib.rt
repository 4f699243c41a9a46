// A map as a lent list of records: built, searched, and handed to the functions over flat numbers. No exported function has a `requires`.
#![tactic(auto)]

mod building;
mod flattening;
mod meeting;

pub use building::build;
pub use flattening::flatten;
pub use meeting::find_hit;
