// Theorems over document 01's definitions, in specs/ and proofs/: no function stands here.
#![tactic(auto)]
