// One case: `CALL NUMBER RECORDS BYTES INPUT TABLE = ANSWER`. What is lent has room for so many records and so many bytes more.
ghost use Rattle.std.specs.Prelude.{◌≤◌};

use crate::call::{Call, Outcome};
use crate::{call, expected};
use spelled::listed::{is_table, put_table, size_of};
use spelled::{is_bytes, put_bytes};
use words::line::{front, start, word};
use words::numeral::number;

// What a case met: whether it is right, what was answered (none: the case is not understood), and the sum of what was lent.
#[derive(Clone, Copy, Debug, PartialEq, Eq)]
pub struct Found {
    pub is_right: bool,
    pub outcome: Option<Outcome>,
    pub sum: u64,
}

// What a case that is not understood met.
fn unclear() -> Found {
    Found {
        is_right: false,
        outcome: None,
        sum: 0,
    }
}

// Whether an answer is the one that is wanted, and is known.
fn is_same(found: Option<Outcome>, wanted: Option<Outcome>) -> bool {
    found.is_some() && found == wanted
}

// Compares an answer, and every byte of what was lent, with what is expected, which is put into `space`: what is not given is to be as
// it was.
fn judged(outcome: Option<Outcome>, lent: &[u8], expected: &[u8], space: &mut [u8]) -> Found {
    let n = expected::put_given(expected, space);
    let is_right = runs::holds(lent, front(space, n))
        && is_same(outcome, expected::wanted(expected, n));
    Found {
        is_right,
        outcome,
        sum: runs::sum_of(lent),
    }
}

// How many bytes are lent.
fn room(asked: &[u8]) -> usize
    ensures { result ≤ 4194304 }
{
    let more = number(asked, 3);
    if 1048576 < more {
        return 4194304;
    }
    size_of(number(asked, 2)) + more as usize
}

// Makes the call, where there is one, with these bytes lent, which are filled before.
fn made(
    call: Option<Call>,
    asked: &[u8],
    input: &[u8],
    table: &[u8],
    lent: &mut [u8],
) -> Option<Outcome> {
    runs::fill(lent);
    Some(call::make(call?, number(asked, 1), input, table, lent))
}

// Makes the call, and compares. The table stands in `space` until the call is made.
fn ask_in(
    call: Option<Call>,
    asked: &[u8],
    input: &[u8],
    lent: &mut [u8],
    space: &mut [u8],
    expected: &[u8],
) -> Found {
    let from = start(asked, 5);
    let n = put_table(&asked[from..], space);
    let outcome = made(call, asked, input, front(space, n), lent);
    judged(outcome, lent, expected, space)
}

// Whether the input and the table of a case are understood.
fn is_clear(asked: &[u8]) -> bool {
    let from = start(asked, 5);
    is_bytes(word(asked, 4)) && is_table(&asked[from..])
}

// A case: its input is put into `input`, what it lends is a part of `lent`, and its table and what it expects are put into `space`.
pub fn ask(
    call: Option<Call>,
    asked: &[u8],
    expected: &[u8],
    input: &mut [u8],
    lent: &mut [u8],
    space: &mut [u8],
) -> Found {
    if !is_clear(asked) {
        return unclear();
    }
    let end = room(asked);
    if lent.len() < end {
        return unclear();
    }
    let n = put_bytes(word(asked, 4), input);
    ask_in(
        call,
        asked,
        front(input, n),
        &mut lent[0..end],
        space,
        expected,
    )
}
