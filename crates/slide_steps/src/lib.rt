// Ticket 13: a recording, frames of edition 2 end to end, slid buffer by buffer: the time tags of every frame that is accepted are shifted
// where they stand, up to the first that is not.
#![tactic(auto)]

ghost use Rattle.std.specs.Prelude.{◌≡◌, ◌≤◌, length};
ghost use Rattle.wire.specs.Limits.{longest};
ghost use Rattle.slide_steps.specs.Steps.{table_size, FrontSlides, Slides};

use edition::Edition;
use refusal::Refusal;
use results::Decoded;
pub use results::End;

// The bytes of the table that a step is lent: 3,276 records.
pub const TABLE_SIZE: usize = 65_520;

// What a step over the bytes of a recording has done: the first `used` bytes are slid, and why no more.
#[derive(Clone, Copy, Debug, PartialEq, Eq)]
pub struct Slid {
    pub used: usize,
    pub end: End,
}

// Shifts the time tags of the frames of `bytes`, which stand somewhere in a recording, by `by` modulo 2^64. What `table` holds then is of
// no use.
//
// Ruled out: a byte of a frame changed that is not accepted; a byte changed by a refusal.
pub fn slide_step(bytes: &mut [u8], by: u64, table: &mut [u8]) -> Result<Slid, Refusal>
    ensures { Slides bytes.old by table.old result bytes.new table.new }
{
    if wire::LONGEST < bytes.len() {
        return Err(Refusal::TooLong);
    }
    if table.len() < TABLE_SIZE {
        return Err(Refusal::OutputShort);
    }
    slide_frames(bytes, by, &mut table[0..TABLE_SIZE])
}

// The same of a buffer and a table of the right lengths.
fn slide_frames(bytes: &mut [u8], by: u64, table: &mut [u8]) -> Result<Slid, Refusal>
    requires { (length bytes.old ≤ longest) × (length table.old ≡ table_size) }
    ensures { Slides bytes.old by table.old result bytes.new table.new }
{
    let mut at = 0;
    while at < bytes.len() {
        match slide_front(&mut bytes[at..], by, table) {
            Ok(Some(size)) => {
                at += size;
            }
            Ok(None) => {
                return Ok(Slid {
                    used: at,
                    end: End::Waiting,
                });
            }
            Err(refusal) => {
                return Ok(Slid {
                    used: at,
                    end: End::Refused(refusal),
                });
            }
        }
    }
    Ok(Slid {
        used: at,
        end: End::Whole,
    })
}

// The frame at the front: it is decoded, and the time tags of its records are shifted. Answers its bytes; none where it is not all there.
fn slide_front(bytes: &mut [u8], by: u64, table: &mut [u8]) -> Result<Option<usize>, Refusal>
    requires { (length bytes.old ≤ longest) × (length table.old ≡ table_size) }
    ensures { FrontSlides by bytes.old result bytes.new }
{
    let decoded = decoder::decode_tcp(Edition::Standard, &bytes[0..], table, wire::DEEPEST)?;
    match decoded {
        Decoded::Packets {
            count,
            left,
            dirty: _,
        } => {
            let size = bytes.len() - left;
            slides::slide_records(&mut bytes[0..size], by, &table[0..], count);
            Ok(Some(size))
        }
        Decoded::Waiting => Ok(None),
        Decoded::Stopped { refusal, .. } => Err(refusal),
    }
}
