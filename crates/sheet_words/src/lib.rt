// Sheets of the second layout, and single words of a sheet, by computation, in proofs/. No function.
#![tactic(auto)]
