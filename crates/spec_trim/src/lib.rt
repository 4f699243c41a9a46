// No function: the trim list, and snapping to sync frames, as definitions in specs/ and laws in proofs/, and the types that they name.
#![tactic(auto)]

pub mod trim;
