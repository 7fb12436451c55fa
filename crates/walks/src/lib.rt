// A walk over a recording that is read buffer by buffer, as a step of a state by value: what the frames of a buffer add to the index, which
// of its bytes are kept, and whether it is read on. A program that repeats the step only reads and writes.
#![tactic(auto)]

mod rest; // rest.rt: the bytes that are kept

ghost use Rattle.std.specs.Prelude.{◌≡◌};
ghost use Rattle.walks.specs.Walks.{reads_on, WalkStep};
ghost use Rattle.walks.specs.CodeWalks.{CanWalk};

use cues::{ENTRY_SIZE, index_step};
pub use rest::keep_rest;
use results::End;

// Where a walk stands: so many records for the bytes up to an offset, and so many bytes after it that were read and are kept.
#[derive(Clone, Copy, Debug, PartialEq, Eq)]
pub struct Position {
    pub at: u64,
    pub records: usize,
    pub kept: usize,
}

// What a buffer comes to. Its records are the first `written` bytes of the output.
#[derive(Clone, Copy)]
pub enum Walked {
    // The recording is read on.
    On {
        written: usize,
        next: Position,
    },
    // There are no more records, and why.
    Ended {
        written: usize,
        last: Position,
        end: End,
    },
    // The recording is too long, and nothing was written.
    TooLong,
}

// Before the first byte of a recording.
//
// Ruled out: a first frame at another offset than 0; a record or a byte that is there before it.
pub fn start() -> Position
    ensures { result ≡ record { at = 0; records = 0; kept = 0 } }
{
    Position {
        at: 0,
        records: 0,
        kept: 0,
    }
}

// Whether a recording is read on after a buffer, which is its last or not.
//
// Ruled out: reading on after a refused frame; reading on after the recording's last buffer.
pub fn reads_on(is_last: bool, end: End) -> bool
    ensures { result ≡ reads_on is_last end }
{
    match end {
        End::Whole | End::Waiting => !is_last,
        End::Refused(_) => false,
    }
}

// Goes over the first `count` bytes of a buffer: those that were kept and the portion that was read after them. It writes the records of
// their frames over the first bytes of `out`, and moves the bytes that it did not use to the buffer's front. A buffer that is not full is
// the recording's last.
//
// Ruled out: reading on after a refused frame; a byte that was not used and is not kept; a full buffer that moves no further.
pub fn walk_step(from: Position, buf: &mut [u8], count: usize, out: &mut [u8]) -> Walked
    requires { CanWalk from buf.old count out.old }
    ensures { WalkStep from buf.old count out.old result buf.new out.new }
{
    let at = from.at;
    match index_step(&buf[..count], at, out) {
        Ok(indexed) => {
            let used = indexed.used;
            let records = indexed.records;
            let end = indexed.end;
            let kept = keep_rest(buf, used, count);
            let written = records * ENTRY_SIZE;
            let next = Position {
                at: at + used as u64,
                records: from.records + records,
                kept,
            };
            let is_last = count < wire::LONGEST;
            if reads_on(is_last, end) {
                return Walked::On { written, next };
            }
            Walked::Ended {
                written,
                last: next,
                end,
            }
        }
        Err(_) => Walked::TooLong,
    }
}
