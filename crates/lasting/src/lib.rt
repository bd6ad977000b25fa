// What follows from the definitions of the calls is proved here, once: see specs/ and proofs/. There is no code here.
#![tactic(auto)]
