// The map of a sheet and a trim list by way of records: built, searched for a caption, and handed over as flat numbers. No exported function has a `requires`.
#![tactic(auto)]

mod own;

pub use own::through_records;
pub use spec_records::map_records_own::Through;
