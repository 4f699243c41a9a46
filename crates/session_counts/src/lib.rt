// The session as values: text taken byte by byte, calls, the plain reader, and the theorem that the two agree. The definitions stand in specs/; here is only the record of counts, with a test of it.
#![tactic(auto)]

mod counting;

pub use counting::counts_above;
pub use spec_machine::session_counts::Counts;
