// Proofs only: rules for walks of functions over references, which crates above cite as `Rattle.walks.proofs.NAME`.

#![tactic(auto)]
