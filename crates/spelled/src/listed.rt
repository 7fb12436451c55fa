// A table as a line lists it: records with " ; " between them, each its kind, end, a, b and start, which may be left out where it is 0.
// A kind may have a number and '*' before it, for so many records, and is four bytes in hexadecimal where the three bytes after it are
// not to be 0. An end, an a or a start that is two numbers with '+' between them is the first, and grows by the second from record to
// record.
ghost use Rattle.std.specs.Prelude.{◌≤◌};
ghost use Rattle.spelled.specs.Put.{Put};

use crate::{is_number, parted};
use wire::{be_u32, put_u32};
use words::hex;
use words::line::{front, until, word};
use words::numeral::number;

// The bytes of a record, five numbers of four bytes: document 01, "The node table".
const RECORD: usize = 20;

// The numbers of a record: its first four bytes, its end, its a and its start, with how much these grow, and its b.
#[derive(Clone, Copy)]
struct Row {
    first: u32,
    end: u32,
    end_step: u32,
    a: u32,
    a_step: u32,
    b: u32,
    start: u32,
    start_step: u32,
}

impl Row {
    // The record after it.
    fn next(self) -> Row {
        Row {
            end: self.end.wrapping_add(self.end_step),
            a: self.a.wrapping_add(self.a_step),
            start: self.start.wrapping_add(self.start_step),
            ..self
        }
    }
}

// How many bytes so many records are; more than is ever lent where they are too many.
pub fn size_of(records: u64) -> usize
    ensures { result ≤ 2621440 }
{
    records.min(131072) as usize * RECORD
}

// How many records stand in so many bytes.
pub fn records_in(bytes: usize) -> u64 {
    (bytes / RECORD) as u64
}

// The byte of a kind that is spelled by itself.
pub fn kind_of(kind: &[u8]) -> u8 {
    kind.first().copied().unwrap_or(0)
}

// The first four bytes of a record, where a kind spells them.
fn spelled_first(kind: &[u8]) -> u32 {
    let mut four = [0u8; 4];
    hex::bytes(kind, &mut four);
    be_u32(&four, 0)
}

// The first four bytes of a record of a kind.
fn first_of(kind: &[u8]) -> u32 {
    if kind.len() == 8 {
        return spelled_first(kind);
    }
    kind_of(kind) as u32 * 0x100_0000
}

// A number of 32 bits, from one of 64.
fn narrow(x: u64) -> u32 {
    (x % 0x1_0000_0000) as u32
}

// What a field begins with.
fn value_of(field: &[u8]) -> u32 {
    narrow(number(front(field, until(field, 0, b'+')), 0))
}

// By how much it grows.
fn step_of(field: &[u8]) -> u32 {
    match parted(field, b'+') {
        Some((_, step)) => narrow(number(step, 0)),
        None => 0,
    }
}

// The numbers of a listed record of this kind.
fn row_of(kind: &[u8], record: &[u8]) -> Row {
    Row {
        first: first_of(kind),
        end: value_of(word(record, 1)),
        end_step: step_of(word(record, 1)),
        a: value_of(word(record, 2)),
        a_step: step_of(word(record, 2)),
        b: value_of(word(record, 3)),
        start: value_of(word(record, 4)),
        start_step: step_of(word(record, 4)),
    }
}

// Puts a record, if there is room.
fn put_record(row: Row, out: &mut [u8]) -> usize
    ensures { Put result out.old out.new }
{
    if out.len() < RECORD {
        return 0;
    }
    put_u32(out, row.first);
    put_u32(&mut out[4..], row.end);
    put_u32(&mut out[8..], row.a);
    put_u32(&mut out[12..], row.b);
    put_u32(&mut out[16..], row.start);
    RECORD
}

// Puts so many records.
fn put_records(times: u64, row: Row, out: &mut [u8]) -> usize
    ensures { Put result out.old out.new }
{
    let mut at = 0;
    let mut row = row;
    for _ in 0..times {
        at += put_record(row, &mut out[at..]);
        row = row.next();
    }
    at
}

// Puts what one record of the list stands for.
fn put_listed(record: &[u8], out: &mut [u8]) -> usize
    ensures { Put result out.old out.new }
{
    let kind = word(record, 0);
    match parted(kind, b'*') {
        Some((times, kind)) => put_records(number(times, 0), row_of(kind, record), out),
        None => put_records(1, row_of(kind, record), out),
    }
}

// Puts the records of a list at the front of `out`, and says how many bytes they are.
pub fn put_table(list: &[u8], out: &mut [u8]) -> usize
    ensures { Put result out.old out.new }
{
    let mut done = 0;
    let mut at = 0;
    while at < list.len() {
        let end = until(list, at, b';');
        done += put_listed(&list[at..end], &mut out[done..]);
        at = end + 2;
    }
    done
}

// Whether a word is a kind.
fn is_kind(kind: &[u8]) -> bool {
    if kind.len() == 8 {
        return hex::is_bytes(kind);
    }
    kind.len() == 1
}

// Whether a word is a kind, or a number of them.
fn is_kinds(kind: &[u8]) -> bool {
    match parted(kind, b'*') {
        Some((times, kind)) => is_number(times) && is_kind(kind),
        None => is_kind(kind),
    }
}

// Whether a word is a number, or two with '+' between them.
fn is_field(field: &[u8]) -> bool {
    match parted(field, b'+') {
        Some((first, step)) => is_number(first) && is_number(step),
        None => is_number(field),
    }
}

// Whether a word is a start, or none.
fn is_start(field: &[u8]) -> bool {
    field.is_empty() || is_field(field)
}

// Whether a part of a list is a record.
fn is_record(record: &[u8]) -> bool {
    is_kinds(word(record, 0))
        && is_field(word(record, 1))
        && is_field(word(record, 2))
        && is_number(word(record, 3))
        && is_start(word(record, 4))
}

// Whether bytes list records, or none.
pub fn is_table(list: &[u8]) -> bool {
    let mut at = 0;
    while at < list.len() {
        let end = until(list, at, b';');
        if !is_record(&list[at..end]) {
            return false;
        }
        at = end + 2;
    }
    true
}
