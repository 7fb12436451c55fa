// What a command of the program `osc` asks of the library, which bytes it keeps of the answer and what it says: decided here, under
// contracts. The program itself reads files, calls these, and writes what they hand back.
#![tactic(auto)]

mod roots; // roots.rt: how many packets a table holds
mod cued; // cued.rt: a recording and its cue index
mod framed; // framed.rt: a frame of a recording
mod tried; // tried.rt: a decoding in a room that may be too small

ghost use Rattle.std.specs.Prelude.{◌≡◌, ◌*◌, ◌≤◌, min, length};
ghost use Rattle.commands.specs.Options.{records_for};
ghost use Rattle.node.specs.Records.{record_size, most_records, capacity};
ghost use Rattle.encoder.specs.Outcome.{Encodes};
ghost use Rattle.outcomes.specs.Kept.{has_table, kept_count, writing_of};
ghost use Rattle.outcomes.specs.Told.{DecodeTold, EncodeTold};

use commands::{Options, Writing};
pub use cued::{check_part, cue_told};
use decoder::decode;
use edition::Framing;
pub use framed::frame_told;
use node::record::{MOST_RECORDS, RECORD_SIZE, capacity_of};
use refusal::Refusal;
use results::Decoded;
use roots::root_count;
use telling::{tell_decoded, tell_encoded};
pub use tried::decode_tried;

// What is kept and said: whether bytes are kept, how many first ones of the slice that was lent for them, and how long the line is.
#[derive(Clone, Copy)]
pub struct Told {
    pub is_kept: bool,
    pub bytes: usize,
    pub line: usize,
}

// Whether a table is kept of an answer.
fn has_table(answer: Result<Decoded, Refusal>) -> bool
    ensures { result ≡ has_table answer }
{
    match answer {
        Ok(Decoded::Packets { .. }) | Ok(Decoded::Stopped { .. }) => true,
        Ok(Decoded::Waiting) | Err(_) => false,
    }
}

// How many records are kept of an answer.
fn kept_count(answer: Result<Decoded, Refusal>) -> usize
    ensures { result ≡ kept_count answer }
{
    match answer {
        Ok(Decoded::Packets { count, .. }) | Ok(Decoded::Stopped { count, .. }) => count,
        Ok(Decoded::Waiting) | Err(_) => 0,
    }
}

// Decodes `msg` to `table`, with room for as many records as the options say, and puts the line for the answer into `line`.
//
// Ruled out: a depth that is not the one asked for; the whole table kept; no table of a list that stopped.
pub fn decode_told(
    framing: Framing,
    options: Options,
    msg: &[u8],
    table: &mut [u8],
    line: &mut [u8],
) -> Told
    requires { record_size * min (records_for options) most_records ≤ length table.old }
    ensures { DecodeTold framing options msg.now table.new line.new result }
{
    let records = options.records().min(MOST_RECORDS);
    let room = records * RECORD_SIZE;
    let answer = decode(framing, msg, &mut table[0..room], options.depth());
    let count = kept_count(answer);
    let packets = root_count(table, count);
    let n = tell_decoded(packets, msg.len(), answer, line);
    let bytes = count * RECORD_SIZE;
    Told {
        is_kept: has_table(answer),
        bytes,
        line: n,
    }
}

// Calls the encoder of a packet alone, or that of a stream of an edition.
fn encoded(writing: Writing, table: &[u8], source: &[u8], out: &mut [u8]) -> Result<usize, Refusal>
    ensures { Encodes (writing_of writing) table.now (capacity table.now) source.now out.old
        (record { answer = result; out = out.new }) }
{
    let count = capacity_of(table);
    match writing {
        Writing::Alone => encoder::encode(table, count, source, out),
        Writing::Stream(edition) => encoder::encode_tcp(edition, table, count, source, out),
    }
}

// Encodes all the records of `table` to `out`, and puts the line for the answer into `line`.
//
// Ruled out: no length before a message of a stream; the stream of another edition; bytes kept of a refusal.
pub fn encode_told(
    writing: Writing,
    table: &[u8],
    source: &[u8],
    out: &mut [u8],
    line: &mut [u8],
) -> Told
    ensures { EncodeTold writing table.now source.now out.old out.new line.new result }
{
    let answer = encoded(writing, table, source, out);
    let n = tell_encoded(answer, line);
    Told {
        is_kept: answer.is_ok(),
        bytes: answer.unwrap_or(0),
        line: n,
    }
}
