// The contract of a public call as one value, and the order's demand 1 of such a value (specs/), with the laws that show it (proofs/).
// There is no code here: a call's contract stands in the call's own crate or in crates/calls, which lists every public call.
#![tactic(auto)]
