// A map in units.
#![tactic(auto)]

mod edge;

pub use edge::edge_at;
pub use spec_ask::ask_edges::Edge;
