// The data types of rosc as values (types.rs), and looking at a record of the node table.
#![tactic(auto)]

pub mod value; // value.rt: a record's kind and fields as a value
pub mod look; // look.rt: a record of a table as a value, and the text that a value names
