// What the leaves answer to a question.
use crate::question;
use crate::question::Question;
use crate::value::put_value;
use node::record;
use node::record::{END, Item};
use refusal::Refusal;
use std::fmt::{Result, Write};
use text::{FoundText, Lack};
use words::hex::Hex;
use words::line::front;
use words::written::Answer;
use words::{hex, line, numeral};

// The largest number of a field.
const MOST: u64 = 0xffff_ffff;

// The answer to a question whose numbers or bytes no call takes.
fn put_out_of_range(out: &mut Answer) -> Result {
    write!(out, " out of range")
}

// The number of a refusal.
fn put_refusal(out: &mut Answer, refusal: Refusal) -> Result {
    write!(out, " refused {}", refusal::number_of(refusal))
}

// Whether bytes are UTF-8.
fn utf8_answer(out: &mut Answer, bytes: &[u8]) -> Result {
    write!(out, " {}", if utf8::is_utf8(bytes) { "yes" } else { "no" })
}

// The length of a character, by its first byte.
fn lead_answer(out: &mut Answer, bytes: &[u8]) -> Result {
    if bytes.len() != 1 {
        return put_out_of_range(out);
    }
    write!(out, " {}", utf8::lead(bytes[0]))
}

// The next multiple of 4.
fn pad_answer(out: &mut Answer, pos: u64) -> Result {
    match wire::pad(pos) {
        Ok(x) => write!(out, " {x}"),
        Err(refusal) => put_refusal(out, refusal),
    }
}

// A number, where the bytes that were written of it are those that it was read from.
fn put_number_back(out: &mut Answer, x: u64, bytes: &[u8], back: &[u8]) -> Result {
    if bytes == back {
        return write!(out, " {x}");
    }
    write!(out, " written otherwise")
}

// The number of four bytes.
fn u32_answer(out: &mut Answer, bytes: &[u8]) -> Result {
    if bytes.len() != 4 {
        return put_out_of_range(out);
    }
    let x = wire::be_u32(bytes, 0);
    let mut back = [0xffu8; 4];
    wire::put_u32(&mut back, x);
    put_number_back(out, x as u64, bytes, &back)
}

// The number of eight bytes.
fn u64_answer(out: &mut Answer, bytes: &[u8]) -> Result {
    if bytes.len() != 8 {
        return put_out_of_range(out);
    }
    let x = wire::be_u64(bytes, 0);
    let mut back = [0xffu8; 8];
    wire::put_u64(&mut back, x);
    put_number_back(out, x, bytes, &back)
}

// What a text lacks.
fn put_lack(out: &mut Answer, lack: Lack) -> Result {
    match lack {
        Lack::Nul => write!(out, " lacks nul"),
        Lack::Padding { at } => write!(out, " lacks padding {at}"),
        Lack::Utf8 => write!(out, " lacks utf8"),
    }
}

// The text at a position of a call's input, which has at most 65,535 bytes.
fn text_answer(out: &mut Answer, pos: u64, bytes: &[u8]) -> Result {
    if 65_279 < pos || 256 < bytes.len() {
        return put_out_of_range(out);
    }
    match text::read_osc_string(bytes, pos as usize) {
        Ok(FoundText { length, used }) => write!(out, " found {length} {used}"),
        Err(lack) => put_lack(out, lack),
    }
}

// Whether the record at the front of a table has these fields.
fn is_record(table: &[u8], item: Item, end: u32) -> bool {
    if record::capacity_of(table) == 0 {
        return false;
    }
    let found = record::item_at(table, 0);
    if record::zeros_at(table, 0) != 0 || record::field_at(table, 0, END) != end {
        return false;
    }
    found.kind == item.kind && found.a == item.a && found.b == item.b && found.start == item.start
}

// The bytes of a record, where reading them gives its fields back. What stood there before is not 0.
fn put_record(out: &mut Answer, item: Item, end: u32) -> Result {
    let mut table = [0xffu8; record::RECORD_SIZE];
    record::put_record(&mut table, item, end);
    if is_record(&table, item, end) {
        return write!(out, " {}", Hex(&table));
    }
    write!(out, " read otherwise")
}

// A record of any five numbers.
fn record_answer(out: &mut Answer, asked: &[u8]) -> Result {
    let kind = numeral::number(asked, 1);
    let end = numeral::number(asked, 2);
    let a = numeral::number(asked, 3);
    let b = numeral::number(asked, 4);
    let start = numeral::number(asked, 5);
    if 255 < kind || MOST < end || MOST < a || MOST < b || MOST < start {
        return put_out_of_range(out);
    }
    put_record(
        out,
        Item {
            kind: kind as u8,
            a: a as u32,
            b: b as u32,
            start: start as u32,
        },
        end as u32,
    )
}

// A record of a table as a value.
fn look_answer(out: &mut Answer, index: u64, table: &[u8]) -> Result {
    match values::look::look(table, index as usize) {
        Ok(value) => put_value(out, value),
        Err(refusal) => put_refusal(out, refusal),
    }
}

// Where the data of a record of a table begins.
fn start_answer(out: &mut Answer, index: u64, table: &[u8]) -> Result {
    match values::look::start_of(table, index as usize) {
        Ok(start) => write!(out, " {start}"),
        Err(refusal) => put_refusal(out, refusal),
    }
}

// The text that the value of a record names.
fn put_text<'a>(out: &mut Answer, item: Item, packet: &'a [u8], label: &'a [u8]) -> Result {
    let mut table = [0u8; record::RECORD_SIZE];
    record::put_record(&mut table, item, 1);
    match values::look::look(&table, 0) {
        Ok(value) => { write!(out, " {}", Hex(values::look::text_of(value, packet, label))) }
        Err(refusal) => put_refusal(out, refusal),
    }
}

// The text that a record of a kind and two fields names. Its start, which is not read, is the largest number.
fn name_in<'a>(out: &mut Answer, asked: &[u8], packet: &'a [u8], label: &'a [u8]) -> Result {
    let kind = numeral::number(asked, 1);
    let a = numeral::number(asked, 2);
    let b = numeral::number(asked, 3);
    if 255 < kind || MOST < a || MOST < b {
        return put_out_of_range(out);
    }
    put_text(
        out,
        Item {
            kind: kind as u8,
            a: a as u32,
            b: b as u32,
            start: MOST as u32,
        },
        packet,
        label,
    )
}

// The bytes of word `n`, put into `space`.
fn bytes_of<'a>(asked: &[u8], n: usize, space: &'a mut [u8; 256]) -> &'a [u8] {
    let count = hex::bytes(line::word(asked, n), space);
    front(space, count)
}

// The same, from the line.
fn name_answer(out: &mut Answer, asked: &[u8]) -> Result {
    let mut packet = [0u8; 256];
    let mut label = [0u8; 256];
    name_in(
        out,
        asked,
        bytes_of(asked, 4, &mut packet),
        bytes_of(asked, 5, &mut label),
    )
}

// The answer to a question whose last word has its bytes.
fn bytes_answer(question: Question, asked: &[u8], out: &mut Answer) -> Result {
    let mut space = [0u8; 256];
    let bytes = bytes_of(asked, question::numbers(question) + 1, &mut space);
    let x = numeral::number(asked, 1);
    match question {
        Question::Lead => lead_answer(out, bytes),
        Question::U32 => u32_answer(out, bytes),
        Question::U64 => u64_answer(out, bytes),
        Question::Text => text_answer(out, x, bytes),
        Question::Look => look_answer(out, x, bytes),
        Question::Start => start_answer(out, x, bytes),
        _ => utf8_answer(out, bytes),
    }
}

// The answer to a question: its numbers stand first, then its bytes.
pub fn answer(question: Question, asked: &[u8], out: &mut Answer) -> Result {
    match question {
        Question::Pad => pad_answer(out, numeral::number(asked, 1)),
        Question::Record => record_answer(out, asked),
        Question::Name => name_answer(out, asked),
        _ => bytes_answer(question, asked, out),
    }
}
