// What a collection keeps is a theorem about the rules: see specs/ and proofs/. There is no code here.
#![tactic(auto)]
