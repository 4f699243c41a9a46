// No code: the plain reader of document 01, lists of calls, and demand 3.
#![tactic(auto)]
