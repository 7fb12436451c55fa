// The layout of a case in the file: its numbers, and where its slices end.
ghost use Rattle.std.specs.Prelude.{IfSome};
ghost use Rattle.recorded_runs.specs.Layout.{Ends, Laid};

use crate::operation::Operation;
use wire::{be_u32, be_u64};

// A case: its first slice starts at 17, its second 4 after the first, and the bytes due 20 after the second. `more` is what a decoder
// is to say beside its answer.
#[derive(Clone, Copy)]
pub struct Case {
    pub operation: Operation,
    pub number: u64,
    pub room: usize,
    pub first: usize,
    pub second: usize,
    pub due: u64,
    pub more: u64,
    pub end: usize,
}

// Where the bytes end whose length stands at `at`, of which there may be `most`; none where they are more, or more than there are.
fn end_of(s: &[u8], at: usize, most: u32) -> Option<usize>
    ensures { IfSome result (Ends s.now at) }
{
    if s.len() < at || s.len() - at < 4 {
        return None;
    }
    let n = be_u32(s, at);
    if most < n || s.len() - at - 4 < n as usize {
        return None;
    }
    Some(at + 4 + n as usize)
}

// The case at the front of a part of the file, where one stands there whole.
//
// Ruled out: a number that is read a byte early; the second slice where the first is.
pub fn find(s: &[u8]) -> Option<Case>
    ensures { IfSome result (Laid s.now) }
{
    let first = end_of(s, 13, 4096)?;
    let second = end_of(s, first, 4096)?;
    if s.len() - second < 16 {
        return None;
    }
    let end = end_of(s, second + 16, 65536)?;
    let operation = Operation::try_from(s[0]).ok()?;
    let room = be_u32(s, 9);
    if 65536 < room {
        return None;
    }
    Some(Case {
        operation,
        number: be_u64(s, 1),
        room: room as usize,
        first,
        second,
        due: be_u64(s, second),
        more: be_u64(s, second + 8),
        end,
    })
}
