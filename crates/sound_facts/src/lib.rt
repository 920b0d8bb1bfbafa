// What edits know of a sound map: theorems, no code.
#![tactic(auto)]
