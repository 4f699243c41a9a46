// Worked examples of snapping and of segments, in specs/ and proofs/. No function.
#![tactic(auto)]
