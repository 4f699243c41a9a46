// No function: 18 blocks, each with a number and a sum, as definitions in specs/ and laws in proofs/.
#![tactic(auto)]
