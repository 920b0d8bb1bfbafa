// How long the lists of one call's change set can get: theorems, no code.
#![tactic(auto)]
