// Document 01's small sheet and worked examples of the sheet's definitions, in specs/ and proofs/. No function.
#![tactic(auto)]
