// OSC 1.0's packets in its own terms (specs/), and laws on how they are read and written (proofs/). There is no code here.
#![tactic(auto)]
