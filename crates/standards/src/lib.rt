// The order's demand 2 as theorems (specs/ and proofs/): what OSC 1.0 allows is read as what it is, what is written is OSC 1.0, and the
// round trip. There is no code here: crates/demands has a function that goes there and back.
#![tactic(auto)]
