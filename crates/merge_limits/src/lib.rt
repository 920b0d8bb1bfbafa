// What merge_lanes decides in numbers is what the definitions of document 01 say of the merged map: see proofs/.
#![tactic(auto)]
