// A crate of statements: demand 3 for the box, undivided, what becomes of blocks that are not known yet, and the marked
// examples of document 01.
#![tactic(auto)]
