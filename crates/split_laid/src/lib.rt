// edit/split.rs: the laws that tie the tables after a split, in words, to the map after it (proofs/).
#![tactic(auto)]
