// map.rs: the test of soundness, from the words of a row up.
#![tactic(auto)]

pub mod sound;
