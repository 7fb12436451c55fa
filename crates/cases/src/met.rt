// What was met: each case as it comes, how often each call gave each answer, and how many cases there were.
ghost use Rattle.std.specs.Prelude.{◌≤◌};

use crate::ask::Found;
use crate::call;
use crate::call::{CALLS, Call, Counts, Outcome, Reason};
use runs::said::{say, say_counts};
use runs::tally::{add, say_met};

// The names of the answers that have one, in the order of their places.
const ANSWERS: [u8; 21] = *b"given waiting stopped";

// The place of what is not understood.
const UNKNOWN: usize = 39;

// For each call forty counts, one for each answer; then the cases, those that differ, and the sum of what was lent.
#[derive(Clone, Copy, Debug, PartialEq, Eq)]
pub struct Met {
    answers: [[u64; 40]; 13],
    cases: u64,
    differ: u64,
    sum: u64,
}

// Nothing is met yet.
pub fn none() -> Met {
    Met {
        answers: [[0; 40]; 13],
        cases: 0,
        differ: 0,
        sum: 0,
    }
}

// The lesser of two numbers.
fn least(a: usize, b: usize) -> usize
    ensures { result ≤ b }
{
    a.min(b)
}

// The place of an answer: refusals stand after the answers that have names.
fn place_of(outcome: Option<Outcome>) -> usize {
    match outcome {
        Some(Outcome::Given(_)) => 0,
        Some(Outcome::Waiting) => 1,
        Some(Outcome::Stopped { .. }) => 2,
        Some(Outcome::Refused(why)) => least(3 + why.number as usize, UNKNOWN),
        None => UNKNOWN,
    }
}

// Counts a case, and what it left in what was lent.
pub fn count(met: &mut Met, call: Option<Call>, found: Found) {
    if let Some(call) = call {
        add(&mut met.answers[call as usize], place_of(found.outcome));
    }
    met.cases = met.cases.wrapping_add(1);
    if !found.is_right {
        met.differ = met.differ.wrapping_add(1);
    }
    met.sum = met.sum.wrapping_add(found.sum);
}

// Says what the cases after it are of.
pub fn say_about(name: &[u8]) {
    io::write_all(1, name);
    io::write_all(1, b"\n");
}

// Says a refusal: where the field began only where one was short.
fn say_refused(text: &[u8], why: Reason) {
    say(text, why.number as u64);
    if 17 <= why.number {
        say(b" at ", why.offset);
    }
}

// Says what was given: dirty padding only where there is some.
fn say_given(answer: &[u8], given: Counts) {
    say_counts(answer, given.count, b", ", given.left, b" left");
    if 0 < given.dirty {
        say(b", dirty ", given.dirty);
    }
}

// Says what was read before a frame that is refused, why it is, and where it began.
fn say_stopped(given: Counts, why: Reason, frame: u64) {
    say_given(b": stopped ", given);
    say_refused(b", refused ", why);
    say(b", frame ", frame);
}

// Says the name of a call as a case has it: `none` is no call, and any other word is left out.
fn say_name(name: &[u8]) {
    if name == b"none".as_slice() || call::call_of(name).is_some() {
        io::write_all(1, name);
    }
}

// Says what a call answered.
pub fn say_case(name: &[u8], outcome: Option<Outcome>) {
    io::write_all(1, b"  ");
    say_name(name);
    match outcome {
        Some(Outcome::Given(given)) => say_given(b": given ", given),
        Some(Outcome::Waiting) => {
            io::write_all(1, b": waiting");
        }
        Some(Outcome::Stopped { given, why, frame }) => say_stopped(given, why, frame),
        Some(Outcome::Refused(why)) => say_refused(b": refused ", why),
        None => {
            io::write_all(1, b": not understood");
        }
    }
    io::write_all(1, b"\n");
}

// Says how often a call gave each answer that is known.
fn say_call(name: &[u8], times: &[u64; 40]) {
    io::write_all(1, name);
    say_met(&ANSWERS, &times[..32]);
}

// Says what was met in all: how often each call gave each answer, the sum of all that was lent, and how many cases there were.
pub fn report(met: &Met) {
    for ((name, _), times) in CALLS.iter().zip(met.answers.iter()) {
        say_call(name, times);
    }
    say(b"sum ", met.sum);
    io::write_all(1, b" of what was lent\n");
    say_counts(b"", met.cases, b" cases, ", met.differ, b" differ\n");
}

// Says that a line differs.
pub fn tell(number: u64, text: &[u8]) {
    say(b"line ", number);
    io::write_all(1, b" differs: ");
    io::write_all(1, text);
    io::write_all(1, b"\n");
}
