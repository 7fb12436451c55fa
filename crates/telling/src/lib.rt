// What the program `osc` says, as the bytes of a line: decided here, under contracts. The program itself only writes them.
#![tactic(auto)]

mod form; // form.rt: a text whose marks are filled in
mod refusals; // refusals.rt: the line for a refusal
mod replies; // replies.rt: the line for an answer of the library
mod shown; // shown.rt: the line for a record that is looked at
mod indexes; // indexes.rt: the line for a cue index
mod trouble; // trouble.rt: the line for trouble with a word or a file

pub use form::fill_in;
pub use indexes::{tell_checked, tell_differs, tell_index, tell_progress, tell_shift};
pub use refusals::tell_numbered;
pub use replies::{tell_decoded, tell_encoded, tell_frame, tell_version};
pub use shown::{tell_record, tell_start};
pub use trouble::tell_trouble;
