// No function: UTF-8, white space, patterns, lines, decimal numbers, as definitions in specs/ and laws in proofs/.
#![tactic(auto)]
