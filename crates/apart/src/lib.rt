// The contracts of the C boundary, each as one value, and the laws over them (specs/ and proofs/). There is no code here.
#![tactic(auto)]
