// The program's walk over a recording as theorems (specs/ and proofs/): a row of its steps writes, or checks, the index of the whole. There
// is no code here.
#![tactic(auto)]
