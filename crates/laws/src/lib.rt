// What is proved of document 01 on maps: see proofs/.
#![tactic(auto)]
