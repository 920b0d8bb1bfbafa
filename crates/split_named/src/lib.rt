// What a split writes in words is what document 01 makes of the map: roads, junctions and rules; theorems, no code.
#![tactic(auto)]
