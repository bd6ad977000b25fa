// The plain list of objects is definitions, with worked examples: see specs/. There is no code here.
#![tactic(auto)]
