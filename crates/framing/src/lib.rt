// How packets stand in an input, as definitions and laws: specs/Framing.antt says how each framing is read. There is no code here.
#![tactic(auto)]
