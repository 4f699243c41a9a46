// No function: whole texts of ASS, SRT and WebVTT, and written captions read back, as definitions in specs/ and laws in proofs/.
#![tactic(auto)]
