// What programs need to read the words of a line or of a command, and to write some.
#![tactic(auto)]

pub mod line; // line.rt: a line cut into words
pub mod numeral; // numeral.rt: a word as a number
pub mod lookup; // lookup.rt: what stands beside a word
pub mod hex; // hex.rt: bytes as hexadecimal digits, read and written
pub mod written; // written.rt: an answer as text
