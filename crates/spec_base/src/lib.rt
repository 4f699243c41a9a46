// No function: limits, refusals in their order, parts of lists, places that are written, as definitions in specs/ and laws in proofs/, and the types that they name.
#![tactic(auto)]
