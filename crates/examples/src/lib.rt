// The requirement's examples and the demands' premises, as theorems over the definitions: they stand in specs/ and
// proofs/. There is no code here.

#![tactic(auto)]
