// The node table that takes the place of rosc's trees: its tags, its records and a record's own rules.
#![tactic(auto)]

pub mod tags; // tags.rt: what each kind or type tag stands for
pub mod record; // record.rt: one record of the node table, written and read
pub mod rules; // rules.rt: the rules that a record obeys by itself
