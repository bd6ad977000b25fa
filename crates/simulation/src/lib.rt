// That each call of the heap does what the plain list does is a theorem about the rules: see proofs/. There is no code here.
#![tactic(auto)]
