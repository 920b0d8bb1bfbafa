// edit/split.rs: laws: the change set that a split writes is the definition's (proofs/).
#![tactic(auto)]
