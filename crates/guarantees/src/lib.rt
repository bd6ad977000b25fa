// What the project promises, on one page: see specs/Guarantees.antt. There is no code here.
#![tactic(auto)]
