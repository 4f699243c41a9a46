// Each sample named once. No exported function has a `requires`.
#![tactic(auto)]

mod bits;
mod naming;

pub use naming::once_fault;
