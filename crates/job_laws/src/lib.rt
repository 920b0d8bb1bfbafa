// Demand 3 over lists in which edits and jobs stand side by side, and what is proved of jobs on maps: see specs/ and proofs/. There is no code.
#![tactic(auto)]
