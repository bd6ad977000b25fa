// The calls of the rain log are definitions, with worked examples: see specs/ and proofs/. There is no code here.
#![tactic(auto)]
