// What a split decides by rows is what document 01 decides on the map: theorems, no code.
#![tactic(auto)]
