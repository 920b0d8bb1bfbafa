// What is known of a split whose lanes are planned, and the laws that need all of it.
#![tactic(auto)]
