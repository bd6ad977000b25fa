// That the order of frees and of roots does not matter is a theorem about the rules: see specs/ and proofs/. There is no code here.
#![tactic(auto)]
