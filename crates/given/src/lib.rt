// What the decoders give as theorems (specs/ and proofs/): trees that need no test and can be encoded, and where each item began. There is
// no code here.
#![tactic(auto)]
