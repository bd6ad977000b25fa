// What holds of every list of calls is a theorem about the rules: see specs/ and proofs/. There is no code here.
#![tactic(auto)]
