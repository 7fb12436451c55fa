// The commands of the program `osc` for recordings and their cue indexes.
#![tactic(auto)]

pub mod checking; // checking.rt: the command check
pub mod cue; // cue.rt: the command cue
pub mod index; // index.rt: the command index
