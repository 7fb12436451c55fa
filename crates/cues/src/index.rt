// The index of the frames of a buffer, which stands somewhere in a recording.
ghost use Rattle.std.specs.Prelude.{◌≡◌, ℕ, ◌≤◌, length};
ghost use Rattle.wire.specs.Limits.{longest};
ghost use Rattle.wire.specs.Wrote.{Wrote};
ghost use Rattle.cues.specs.Cues.{entry_of, entry_size, Indexes};
ghost use Rattle.cues.specs.CodeCues.{stretch_of, CanWrite, written_in};

use crate::cue::cue_of;
use refusal::Refusal;
use results::{End, Indexed};

// The bytes of an index's record.
pub const ENTRY_SIZE: usize = 16;

// The most records that the frames of a buffer of 65,535 bytes have: a frame has 12 at least.
pub const MOST_ENTRIES: usize = 5461;

// The length that a recording has at most.
pub const LONGEST_RECORDING: u64 = 0x7fff_ffff_ffff_ffff;

// Writes the index of the frames of `bytes`, which stand at offset `base` of a recording, over the first bytes of `out`.
//
// Ruled out: the offset of a frame told after its prefix; a record for a frame that is not accepted.
pub fn index_step(bytes: &[u8], base: u64, out: &mut [u8]) -> Result<Indexed, Refusal>
    ensures { Indexes bytes.now base out.old result out.new }
{
    if wire::LONGEST < bytes.len() {
        return Err(Refusal::TooLong);
    }
    if LONGEST_RECORDING - (bytes.len() as u64) < base {
        return Err(Refusal::TooLong);
    }
    let stretch = measure_cues(bytes);
    if out.len() / ENTRY_SIZE < stretch.records {
        return Err(Refusal::OutputShort);
    }
    write_cues(bytes, base, stretch.records, out);
    Ok(stretch)
}

// The frames of `bytes` that are accepted, up to the first that is not, wherever they stand. It writes nothing. By a `while`: a step is as
// long as its frame, and what ends it is an answer too.
fn measure_cues(bytes: &[u8]) -> Indexed
    requires { length bytes.now ≤ longest }
    ensures { (base : ℕ) → result ≡ stretch_of base bytes.now }
{
    let mut at = 0;
    let mut records = 0;
    while at < bytes.len() {
        match cue_of(&bytes[at..]) {
            Ok(Some(frame)) => {
                at += frame.size;
                records += 1;
            }
            Ok(None) => {
                return Indexed {
                    records,
                    used: at,
                    end: End::Waiting,
                };
            }
            Err(refusal) => {
                return Indexed {
                    records,
                    used: at,
                    end: End::Refused(refusal),
                };
            }
        }
    }
    Indexed {
        records,
        used: at,
        end: End::Whole,
    }
}

// Writes the records of the first `records` frames of `bytes`, all of which are accepted.
fn write_cues(bytes: &[u8], base: u64, records: usize, out: &mut [u8])
    requires { CanWrite bytes.now base records out.old }
    ensures { Wrote (written_in bytes.now base) out.old out.new }
{
    let mut at = 0;
    for written in 0..records {
        match cue_of(&bytes[at..]) {
            Ok(Some(frame)) => {
                let later = &mut out[ENTRY_SIZE * written..];
                put_entry(later, base + at as u64, frame.size, frame.records);
                at += frame.size;
            }
            Ok(None) => return,
            Err(_) => return,
        }
    }
}

// Writes one record: where the frame's prefix stands, its length without it, and the records of its table.
fn put_entry(out: &mut [u8], offset: u64, size: usize, records: usize)
    requires { (entry_size ≤ length out.old) × (4 ≤ size) × (size ≤ longest) × (records ≤ longest) }
    ensures { Wrote (entry_of offset size records) out.old out.new }
{
    wire::put_u64(out, offset);
    wire::put_u32(&mut out[8..], (size - 4) as u32);
    wire::put_u32(&mut out[12..], records as u32);
}
