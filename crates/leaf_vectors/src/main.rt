// Runs the leaves on vectors from outside and says which answers differ. Standard input has one vector to a line,
// `QUESTION = ANSWER`; an empty line, and one that begins with '#', has none.
#![tactic(auto)]

mod question; // question.rt: what a line asks
mod answer; // answer.rt: what the leaves answer
mod value; // value.rt: a value as text

ghost use Rattle.std.specs.Prelude.{◌<◌, ◌≤◌, length};

use question::Question;
use runs::said::{say, say_counts};
use runs::tally::{add, say_met};
use std::fmt::Write;
use words::line;
use words::written::Answer;

// The tally has 25 numbers for each of the 11 questions: how many vectors there are, how many of them differ, the sum of the answers, and
// how many answers begin with each of 22 words.
type Tally = [u64; 275];

const EACH: usize = 25;

const DIFFER: usize = 1;

const SUM: usize = 2;

const FIRST_WORDS: usize = 3;

// The first words of the answers; the last is for any other, such as a number.
const WORDS: [u8; 121] =
    *b"yes no found lacks message bundle int float string blob time long double char color midi bool nil inf array refused other";

// The place of a question in the tally; the last is for what is none.
fn place(question: Option<Question>) -> usize
    ensures { result < 11 }
{
    match question {
        Some(question) => question as usize,
        None => 10,
    }
}

// The place of an answer's first word.
fn word_place(answered: &[u8]) -> usize
    ensures { result ≤ 21 }
{
    line::place_of(&WORDS, line::word(answered, 1)).min(21)
}

// Counts an answer of the question whose numbers begin at a place.
fn count(tally: &mut Tally, from: usize, answered: &[u8])
    requires { from ≤ 250 }
{
    add(tally, from);
    add(tally, from + FIRST_WORDS + word_place(answered));
    tally[from + SUM] = tally[from + SUM].wrapping_add(runs::sum_of(answered));
}

// Says what differs at a line.
fn tell(number: u64, expected: &[u8], answered: &[u8]) {
    say(b"line ", number);
    io::write_all(1, b": expected");
    io::write_all(1, expected);
    io::write_all(1, b", answered");
    io::write_all(1, answered);
    io::write_all(1, b"\n");
}

// Whether a line holds no vector.
fn is_comment(line: &[u8]) -> bool {
    line.is_empty() || line[0] == b'#'
}

// Asks one line's question, and compares the answer with the one that stands there.
fn vector(line: &[u8], number: u64, tally: &mut Tally) {
    let equals = line::until(line, 0, b'=');
    let asked = line::front(line, equals);
    let expected = line::after(line, equals);
    let question = question::question_of(asked);
    let from = EACH * place(question);
    let mut out = Answer::new();
    let _ = match question {
        Some(question) => answer::answer(question, asked, &mut out),
        None => write!(out, " not understood"),
    };
    count(tally, from, out.as_bytes());
    if expected != out.as_bytes() {
        add(tally, from + DIFFER);
        tell(number, expected, out.as_bytes());
    }
}

// Asks every line of the input.
fn run(input: &[u8], tally: &mut Tally) {
    for (i, line) in input.split(|b| *b == b'\n').enumerate() {
        if !is_comment(line) {
            vector(line, i as u64 + 1, tally);
        }
    }
}

// Says what was met of the question whose numbers begin at a place.
fn total(name: &[u8], tally: &[u64], from: usize)
    requires { (from ≤ 250) × (275 ≤ length tally.now) }
{
    io::write_all(1, name);
    say_counts(
        b": ",
        tally[from],
        b" vectors, ",
        tally[from + DIFFER],
        b" differ",
    );
    say(b", sum ", tally[from + SUM]);
    say_met(&WORDS, &tally[from + FIRST_WORDS..from + EACH]);
}

// Says it of every question.
fn totals(tally: &[u64])
    requires { 275 ≤ length tally.now }
{
    for at in 0..11 {
        total(line::word(&question::NAMES, at), tally, EACH * at);
    }
}

// Says what was met.
fn report(tally: &Tally) {
    totals(tally);
}

// A vector that stands past the buffer's 65,536 bytes is not read, so that its question's count differs.
fn main() {
    let mut space = io::large_buffer();
    let n = io::read_full(0, &mut space);
    let mut tally = [0u64; 275];
    run(&space[..n], &mut tally);
    report(&tally);
}
