// Document 01 as definitions: see specs/. There is no code here; the crates above are proved equal to these definitions.
#![tactic(auto)]
