// The customer's demands are theorems over the definitions: they stand in specs/ and proofs/. There is no code here.

#![tactic(auto)]
