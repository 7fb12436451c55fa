// What every command of the program `osc` needs: the files that its words name, the lines that it says, and room for a table.
#![tactic(auto)]

pub mod named; // named.rt: the files that words name
pub mod say; // say.rt: lines written
pub mod space; // space.rt: the buffers that are lent
pub mod typed; // typed.rt: the words of the command
