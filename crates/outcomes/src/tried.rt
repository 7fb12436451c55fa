// A decoding that is tried in a room which may be too small.
ghost use Rattle.std.specs.Prelude.{◌≡◌};
ghost use Rattle.outcomes.specs.Tried.{is_full, TriedTold};

use crate::{Told, decode_told};
use answering::answer;
use commands::Options;
use edition::Framing;
use node::record::{MOST_RECORDS, capacity_of};
use refusal::{Refusal, number_of};
use results::Decoded;

// Whether an answer is 10.
fn is_full(answer: Result<Decoded, Refusal>) -> bool
    ensures { result ≡ is_full answer }
{
    match answer {
        Ok(_) => false,
        Err(refusal) => number_of(refusal) == 10,
    }
}

// Decodes `msg` to `table` as `decode_told` does, where the room that `table` has gives the answer that the options ask for; none where it
// is too small for the records, and room for more of them is asked for.
//
// Ruled out: 10 for want of room, where the options ask for more; a table of fewer records than the answer has.
pub fn decode_tried(
    framing: Framing,
    options: Options,
    msg: &[u8],
    table: &mut [u8],
    line: &mut [u8],
) -> Option<Told>
    ensures { TriedTold framing options msg.now table.new line.new result }
{
    let room = capacity_of(table);
    if options.records().min(MOST_RECORDS) <= room {
        return Some(decode_told(framing, options, msg, table, line));
    }
    if is_full(answer(framing, msg, room, options.depth())) {
        return None;
    }
    let fewer = Options {
        records: Some(room),
        ..options
    };
    Some(decode_told(framing, fewer, msg, table, line))
}
