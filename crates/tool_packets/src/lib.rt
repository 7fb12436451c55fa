// The commands of the program `osc` for packets, their tables and their times.
#![tactic(auto)]

pub mod decode; // decode.rt: the command decode
pub mod encode; // encode.rt: the command encode
pub mod look; // look.rt: the command look
mod rooms; // rooms.rt: room for the records of a table
pub mod time; // time.rt: the command time
