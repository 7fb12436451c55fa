// Ticket 5 as theorems (specs/ and proofs/): the index of a recording that is read through buffers. There is no code here.
#![tactic(auto)]
