// No code: lists of calls worked through demand 3, on document 01's example.
#![tactic(auto)]
