// That the heap is a plain list of objects to its callers is a theorem about the rules: see specs/ and proofs/. There is no code here.
