// A job on lent memory: definitions and theorems, no code.
#![tactic(auto)]
