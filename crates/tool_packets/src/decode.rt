// The command decode: the bytes of a file to a table.
ghost use Rattle.std.specs.Prelude.{◌*◌, ◌≤◌, length};
ghost use Rattle.node.specs.Records.{record_size, most_records};

use crate::rooms;
use crate::rooms::Work;
use commands::{Decoding, decode_asked, options_of};
use files::Kind;
use outcomes::{decode_told, decode_tried};
use tool_files::typed::word;
use tool_files::{named, say};

// Decodes bytes to the file that word 4 names, in a room for any table.
pub fn go_on(
    rt: &HostRuntime,
    decoding: Decoding,
    is_replacing: bool,
    input: &[u8],
    room: &mut [u8],
)
    requires { record_size * most_records ≤ length room.old }
{
    let mut line = io::buffer();
    let told = decode_told(decoding.framing, decoding.options, input, room, &mut line);
    named::keep(rt, 4, Kind::Table, is_replacing, told, room, &line);
}

// The same in a room that may be too small; whether it was enough.
pub fn begin(
    rt: &HostRuntime,
    decoding: Decoding,
    is_replacing: bool,
    input: &[u8],
    room: &mut [u8],
) -> bool {
    let mut line = io::buffer();
    let tried = decode_tried(decoding.framing, decoding.options, input, room, &mut line);
    if let Some(told) = tried {
        named::keep(rt, 4, Kind::Table, is_replacing, told, room, &line);
    }
    tried.is_some()
}

// Decodes the file that word 3 names. Of a file that is too large the library sees a byte too many, and refuses it.
fn decode_file(rt: &HostRuntime, decoding: Decoding, is_replacing: bool) {
    let mut input = io::large_buffer();
    let Ok(n) = named::read_word(rt, 3, 4, &mut input) else {
        return;
    };
    if !rooms::begin(rt, Work::Decode(decoding, is_replacing), &input[..n]) {
        rooms::go_on(rt, Work::Decode(decoding, is_replacing), &input[..n]);
    }
}

// Of its words there are `count`, --replace not counted.
pub fn run(rt: &HostRuntime, count: usize, is_replacing: bool) {
    let mut framing = io::buffer();
    let mut name = io::buffer();
    let mut number = io::buffer();
    let mut second = io::buffer();
    let mut second_number = io::buffer();
    let f = word(rt, 2, &mut framing);
    let n = word(rt, 5, &mut name);
    let w = word(rt, 6, &mut number);
    let s = word(rt, 7, &mut second);
    let t = word(rt, 8, &mut second_number);
    let chosen = options_of(
        count,
        &name[..n],
        &number[..w],
        &second[..s],
        &second_number[..t],
    );
    match decode_asked(chosen, &framing[..f]) {
        Ok(decoding) => decode_file(rt, decoding, is_replacing),
        Err(blame) => say::blame(rt, blame),
    }
}
