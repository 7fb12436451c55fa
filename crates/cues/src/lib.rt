// A cue index of a recording, frames of edition 2 end to end (Ticket 5): 16 bytes for each frame, up to the first that is not accepted.
#![tactic(auto)]

mod checked; // checked.rt: an index against another
mod cue; // cue.rt: one frame, as it is judged for an index
mod index; // index.rt: the frames of a buffer
mod lookup; // lookup.rt: a cue by its number

pub use checked::{compare, compare_from};
pub use cue::{JudgedFrame, MOST_IN_A_CUE, cue_of};
pub use index::{ENTRY_SIZE, MOST_ENTRIES, index_step};
pub use lookup::cue_at;
pub use results::{CueAt, End, INDEX_DIFFERS, IndexDiffers, Indexed};
