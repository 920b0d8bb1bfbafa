// edit/merge.rs: the lists that a merge's code writes are the change set of the rules, and the tables without lines those of the merged map: laws alone.
#![tactic(auto)]
