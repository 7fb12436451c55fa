// What a line expects: `packets LEFT TABLE`, `dirty BYTES LEFT TABLE`, `written BYTES`, `waiting`, `refused NUMBER`,
// `refused NUMBER OFFSET`, `stopped NUMBER OFFSET FRAME LEFT DIRTY TABLE`, `value KIND` or `at POSITION`.
ghost use Rattle.spelled.specs.Put.{Put};

use crate::call::{Outcome, Reason, given, records};
use spelled::listed::{kind_of, put_table, records_in};
use spelled::put_bytes;
use words::line::{start, word};
use words::lookup::beside;
use words::numeral::number;

// How a line says what it expects: its first word.
#[derive(Clone, Copy, Debug, PartialEq, Eq)]
enum Form {
    Packets,
    Dirty,
    Written,
    Waiting,
    Refused,
    Stopped,
    Value,
    At,
}

// The words of the forms.
const FORMS: [(&[u8], Form); 8] = [
    (b"packets", Form::Packets),
    (b"dirty", Form::Dirty),
    (b"written", Form::Written),
    (b"waiting", Form::Waiting),
    (b"refused", Form::Refused),
    (b"stopped", Form::Stopped),
    (b"value", Form::Value),
    (b"at", Form::At),
];

// The form of a line.
fn form_of(expected: &[u8]) -> Option<Form> {
    beside(&FORMS, word(expected, 0))
}

// Puts the bytes that are to stand in what was lent, and says how many there are.
pub fn put_given(expected: &[u8], out: &mut [u8]) -> usize
    ensures { Put result out.old out.new }
{
    let table = match form_of(expected) {
        Some(Form::Packets) => 2,
        Some(Form::Dirty) => 3,
        Some(Form::Stopped) => 6,
        Some(Form::Written) => return put_bytes(word(expected, 1), out),
        _ => return 0,
    };
    let from = start(expected, table);
    put_table(&expected[from..], out)
}

// Why a call is to be refused: the number of a field that was short is followed by the offset at which it began.
fn why(expected: &[u8]) -> Option<Reason> {
    match number(expected, 1) {
        x @ 0..17 => Some(Reason {
            number: x as u8,
            offset: 0,
        }),
        x @ 17..22 => Some(Reason {
            number: x as u8,
            offset: number(expected, 2),
        }),
        _ => None,
    }
}

// A list that stopped: the refusal of the frame is told as any other, with an offset whatever its number.
fn stopped(expected: &[u8], bytes: usize) -> Option<Outcome> {
    Some(Outcome::Stopped {
        given: records(records_in(bytes), number(expected, 4), number(expected, 5)),
        why: why(expected)?,
        frame: number(expected, 3),
    })
}

// The answer that a line expects, where it gives so many bytes; none where the line is not understood.
pub fn wanted(expected: &[u8], bytes: usize) -> Option<Outcome> {
    match form_of(expected)? {
        Form::Packets => Some(Outcome::Given(records(records_in(bytes), number(expected, 1), 0))),
        Form::Dirty => Some(Outcome::Given(records(
            records_in(bytes),
            number(expected, 2),
            number(expected, 1),
        ))),
        Form::Written => Some(given(bytes as u64)),
        Form::Waiting => Some(Outcome::Waiting),
        Form::Refused => Some(Outcome::Refused(why(expected)?)),
        Form::Stopped => stopped(expected, bytes),
        Form::Value => Some(given(kind_of(word(expected, 1)) as u64)),
        Form::At => Some(given(number(expected, 1))),
    }
}
