// The command encode: a table and its source to the bytes of a packet.
ghost use Rattle.std.specs.Prelude.{◌*◌, ◌≤◌, length};
ghost use Rattle.node.specs.Records.{record_size, most_records};

use crate::rooms;
use crate::rooms::Work;
use commands::{Writing, encode_asked};
use files::Kind;
use outcomes::encode_told;
use std::fs::File;
use tool_files::named::Records;
use tool_files::typed::word;
use tool_files::{named, say};
use words::line::front;

// Encodes with the texts of the file that word 4 names to the one that word 5 names.
fn encode_with_source(rt: &HostRuntime, writing: Writing, is_replacing: bool, table: &[u8]) {
    let mut source = io::large_buffer();
    let Ok(n) = named::read_whole(rt, 4, 5, &mut source) else {
        return;
    };
    let mut out = io::large_buffer();
    let mut line = io::buffer();
    let told = encode_told(writing, table, &source[..n], &mut out, &mut line);
    named::keep(rt, 5, Kind::Packet, is_replacing, told, &out, &line);
}

// Encodes an open table, whose first bytes were read, in a room for any.
pub fn go_on(
    rt: &HostRuntime,
    writing: Writing,
    is_replacing: bool,
    file: File,
    first: &[u8],
    room: &mut [u8],
)
    requires { length first.now ≤ length room.old }
{
    if let Records::Whole(n) = named::read_rest(rt, file, 3, first, room) {
        encode_with_source(rt, writing, is_replacing, front(room, n));
    }
}

// Encodes an open table in a room that may be too small for it.
pub fn begin(rt: &HostRuntime, writing: Writing, is_replacing: bool, file: File, room: &mut [u8])
    requires { length room.old ≤ record_size * most_records }
{
    match named::read_table(rt, file, 3, room) {
        Records::Whole(n) => encode_with_source(rt, writing, is_replacing, front(room, n)),
        Records::More(file) => rooms::go_on(rt, Work::Encode(writing, is_replacing, file), room),
        Records::Failed => {}
    }
}

// Of its words there are `count`, --replace not counted.
pub fn run(rt: &HostRuntime, count: usize, is_replacing: bool) {
    let mut framing = io::buffer();
    let n = word(rt, 2, &mut framing);
    match encode_asked(count, &framing[..n]) {
        Ok(writing) => {
            if let Some(file) = named::open_table(rt, 3, 5) {
                rooms::run(rt, Work::Encode(writing, is_replacing, file));
            }
        }
        Err(blame) => say::blame(rt, blame),
    }
}
