// The tables with lines that a merge leaves are those of the merged map: see proofs/.
#![tactic(auto)]
