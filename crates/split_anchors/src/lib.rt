// The centreline of a half in the map after the cut is what the old tables make of it, so anchors lie past the same cuts: theorems, no code.
#![tactic(auto)]
