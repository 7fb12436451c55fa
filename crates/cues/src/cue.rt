// One frame of a recording, as it is judged for an index.
ghost use Rattle.std.specs.Prelude.{◌≡◌, ◌≤◌, length};
ghost use Rattle.wire.specs.Limits.{longest};
ghost use Rattle.cues.specs.Cues.{cue_of};

use edition::{Edition, Framing};
use refusal::Refusal;
use results::Decoded;

// The records of a table of 64 KiB: a frame with more of them is not accepted.
pub const MOST_IN_A_CUE: usize = 3276;

// A frame that is accepted: its bytes, prefix included, and the records of its table.
#[derive(Clone, Copy, Debug, PartialEq, Eq)]
pub struct JudgedFrame {
    pub size: usize,
    pub records: usize,
}

// Judges the frame at the front of `bytes`; none where it is not all there.
//
// Ruled out: a frame with 3,277 records accepted; the length told without the prefix.
pub fn cue_of(bytes: &[u8]) -> Result<Option<JudgedFrame>, Refusal>
    requires { length bytes.now ≤ longest }
    ensures { result ≡ cue_of bytes.now }
{
    let framing = Framing::Tcp(Edition::Standard);
    let decoded = answering::answer(framing, bytes, MOST_IN_A_CUE, wire::DEEPEST)?;
    match decoded {
        Decoded::Packets {
            count,
            left,
            dirty: _,
        } => Ok(Some(JudgedFrame {
            size: bytes.len() - left,
            records: count,
        })),
        Decoded::Waiting => Ok(None),
        Decoded::Stopped { refusal, .. } => Err(refusal),
    }
}
