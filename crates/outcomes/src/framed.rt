// A frame of a recording: its packet is decoded alone, and it is said where the frame lies.
ghost use Rattle.std.specs.Prelude.{◌≡◌, ◌*◌, ◌≤◌, length};
ghost use Rattle.node.specs.Records.{record_size};
ghost use Rattle.cues.specs.Cues.{most_in_a_cue};
ghost use Rattle.outcomes.specs.Framed.{without_end, as_indexed, FrameTold};

use crate::{Told, decode_told};
use commands::Options;
use cues::MOST_IN_A_CUE;
use edition::Framing;
use telling::tell_frame;
use words::line::front;

// A line without its end.
fn until_end(line: &[u8]) -> &[u8]
    ensures { result.now ≡ without_end line.now }
{
    let n = line.len();
    if n == 0 {
        return front(line, 0);
    }
    front(line, n - 1)
}

// A frame is decoded with the depth and the records with which an index accepts it.
fn as_indexed() -> Options
    ensures { result ≡ as_indexed }
{
    Options {
        records: Some(MOST_IN_A_CUE),
        ..Options::default()
    }
}

// Decodes the packet of a frame, which begins at offset `at` of its recording, to `table`, and puts the line for the answer into `line`.
//
// Ruled out: a table whose offsets count from the frame's prefix; a line without the frame's offset.
pub fn frame_told(packet: &[u8], at: u64, table: &mut [u8], line: &mut [u8]) -> Told
    requires { record_size * most_in_a_cue ≤ length table.old }
    ensures { FrameTold packet.now at table.new line.new result }
{
    let mut words = io::buffer();
    let told = decode_told(Framing::Udp, as_indexed(), packet, table, &mut words);
    let n = tell_frame(at, packet.len(), until_end(front(&words, told.line)), line);
    Told {
        is_kept: told.is_kept,
        bytes: told.bytes,
        line: n,
    }
}
