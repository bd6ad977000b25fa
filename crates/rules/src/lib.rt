// The rules of the heap are definitions: see specs/. There is no code here.
#![tactic(auto)]
