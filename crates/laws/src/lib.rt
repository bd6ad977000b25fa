// What the definitions of the rules mean, and the laws that show it and that other crates cite: see specs/ and proofs/. There is no code here.
#![tactic(auto)]
