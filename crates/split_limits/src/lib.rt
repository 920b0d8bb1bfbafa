// The room test in numbers is the room test of the map after a split: theorems, no code.
#![tactic(auto)]
