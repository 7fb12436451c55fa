// What a line asks: a name, numbers in decimal, then bytes in hexadecimal.
ghost use Rattle.std.specs.Prelude.{◌≤◌};

use words::{hex, line, numeral};

// The names of the questions, in the order of the tally; the last is for what is none.
pub const NAMES: [u8; 57] = *b"utf8 lead pad u32 u64 text record look name start unclear";

#[derive(Clone, Copy)]
pub enum Question {
    // `utf8 BYTES`: are they UTF-8?
    Utf8,
    // `lead BYTE`: how many bytes has the character that begins so?
    Lead,
    // `pad NUMBER`: the next multiple of 4.
    Pad,
    // `u32 BYTES`: the number of four bytes.
    U32,
    // `u64 BYTES`: the number of eight bytes.
    U64,
    // `text POSITION BYTES`: the text that stands there.
    Text,
    // `record KIND END A B START`: the bytes of a record.
    Record,
    // `look INDEX TABLE`: a record as a value.
    Look,
    // `name KIND A B PACKET LABEL`: the text that a value names.
    Name,
    // `start INDEX TABLE`: where the data of a record begins.
    Start,
}

// The questions, in the order of their names.
const ALL: [Question; 10] = [
    Question::Utf8,
    Question::Lead,
    Question::Pad,
    Question::U32,
    Question::U64,
    Question::Text,
    Question::Record,
    Question::Look,
    Question::Name,
    Question::Start,
];

// Whether a word is a number.
fn is_number(word: &[u8]) -> bool {
    numeral::decimal(word).is_some()
}

// Whether a word is bytes, and no more than there is room for.
fn is_short_bytes(word: &[u8]) -> bool {
    word.len() <= 512 && hex::is_bytes(word)
}

// Whether word `n` is a number, or for a later one bytes.
fn is_fitting(asked: &[u8], n: usize, numbers: usize) -> bool {
    let word = line::word(asked, n);
    if n <= numbers {
        return is_number(word);
    }
    is_short_bytes(word)
}

// Whether a name is followed by so many numbers and words of bytes, and by nothing else.
fn has_shape(asked: &[u8], numbers: usize, parts: usize) -> bool
    requires { (numbers ≤ 5) × (parts ≤ 2) }
{
    let end = numbers + parts + 1;
    (1..end).all(|n| is_fitting(asked, n, numbers)) && line::start(asked, end) == asked.len()
}

// How many numbers a question has.
pub fn numbers(question: Question) -> usize
    ensures { result ≤ 5 }
{
    match question {
        Question::Pad => 1,
        Question::Text => 1,
        Question::Record => 5,
        Question::Look => 1,
        Question::Name => 3,
        Question::Start => 1,
        _ => 0,
    }
}

// How many words of bytes it has.
fn parts(question: Question) -> usize
    ensures { result ≤ 2 }
{
    match question {
        Question::Pad => 0,
        Question::Record => 0,
        Question::Name => 2,
        _ => 1,
    }
}

// The question of a line, if it asks one.
pub fn question_of(asked: &[u8]) -> Option<Question> {
    let question = ALL
        .get(line::place_of(&NAMES, line::word(asked, 0)))
        .copied()?;
    if has_shape(asked, numbers(question), parts(question)) {
        return Some(question);
    }
    None
}
