// The corners of document 01, computed by the rules.
#![tactic(auto)]
