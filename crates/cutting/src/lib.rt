// Ticket 14 as theorems (specs/ and proofs/): cutting a stream of edition 2 changes nothing that is read from it. There is no code here:
// the step that a recorder repeats is crates/portions.
#![tactic(auto)]
