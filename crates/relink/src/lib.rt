// edit/mod.rs: what connect and disconnect do to rows, lists and answer once their lanes are found.
#![tactic(auto)]

pub mod links;
