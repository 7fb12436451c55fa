// What `osc time` says, and `osc look` with --rule, as the bytes of a line.
#![tactic(auto)]

ghost use Rattle.std.specs.Prelude.{◌≡◌};
ghost use Rattle.telling.specs.Forms.{Says};
ghost use Rattle.time_lines.specs.TimeLines.{time_line, tag_line, with_tag, moment_line};
ghost use Rattle.time_lines.specs.TimeLines.{tag_bits, time_in, time_in_line, record_time};
ghost use Rattle.clock.specs.Clock.{tag_for};

use clock::{Rule, number_of, tag_of, unix_of};
use dates::date_of;
use telling::{fill_in, tell_numbered};
use time_words::Moment;
use values::look::look;
use values::value::{OscTime, OscType};
use words::written::magnitude;

// The seconds and their nine digits, the tag, the date and the time of the day.
const FORM: [u8; 57] = *b"time: %.%%%%%%%%% s, tag $$, %-%%-%%T%%:%%:%%.%%%%%%%%%Z\n";

// Puts the line for a Unix time and its tag at the front of `out`, and answers how long it is. What has no room is left out.
//
// Ruled out: a month without its 0; the date of the day before; the nanoseconds without zeros before them.
fn tell_time(seconds: u64, nanos: u64, tag: u64, out: &mut [u8]) -> usize
    ensures { Says (time_line seconds nanos tag) out.new result }
{
    let date = date_of(seconds / 86_400);
    let second = seconds % 86_400;
    fill_in(
        &FORM,
        &[
            seconds,
            nanos / 100_000_000,
            nanos / 10_000_000 % 10,
            nanos / 1_000_000 % 10,
            nanos / 100_000 % 10,
            nanos / 10_000 % 10,
            nanos / 1_000 % 10,
            nanos / 100 % 10,
            nanos / 10 % 10,
            nanos % 10,
            tag / 0x1_0000_0000,
            tag % 0x1_0000_0000,
            date.year,
            date.month / 10,
            date.month % 10,
            date.day / 10,
            date.day % 10,
            second / 3_600 / 10,
            second / 3_600 % 10,
            second / 60 % 60 / 10,
            second / 60 % 60 % 10,
            second % 60 / 10,
            second % 60 % 10,
            nanos / 100_000_000,
            nanos / 10_000_000 % 10,
            nanos / 1_000_000 % 10,
            nanos / 100_000 % 10,
            nanos / 10_000 % 10,
            nanos / 1_000 % 10,
            nanos / 100 % 10,
            nanos / 10 % 10,
            nanos % 10,
        ],
        b"",
        out,
    )
}

// Puts the line for a tag: its Unix time and date, or the refusal.
//
// Ruled out: the line of the other rule; a date for a tag that is refused.
fn tell_tag(rule: Rule, tag: u64, out: &mut [u8]) -> usize
    ensures { Says (tag_line rule tag) out.new result }
{
    match unix_of(rule, tag) {
        Ok(time) => tell_time(magnitude(time.seconds), time.nanos, tag, out),
        Err(reason) => tell_numbered(number_of(reason), 0, out),
    }
}

// Puts the line for a Unix time: its tag and date, or the refusal.
fn tell_unix(rule: Rule, seconds: i64, nanos: u64, out: &mut [u8]) -> usize
    ensures { Says (with_tag seconds nanos (tag_for rule seconds nanos)) out.new result }
{
    match tag_of(rule, seconds, nanos) {
        Ok(tag) => tell_time(magnitude(seconds), nanos, tag, out),
        Err(reason) => tell_numbered(number_of(reason), 0, out),
    }
}

// Puts the line that `osc time` says at the front of `out`, and answers how long it is. What has no room is left out.
//
// Ruled out: the line of a tag for seconds; the words of another refusal.
pub fn tell_moment(rule: Rule, moment: Moment, out: &mut [u8]) -> usize
    ensures { Says (moment_line rule moment) out.new result }
{
    match moment {
        Moment::Tag(tag) => tell_tag(rule, tag, out),
        Moment::Unix { seconds, nanos } => tell_unix(rule, seconds, nanos, out),
    }
}

// The 64 bits of a time tag.
fn tag_bits(time: OscTime) -> u64
    ensures { result ≡ tag_bits time }
{
    time.seconds as u64 * 0x1_0000_0000 + time.fractional as u64
}

// The time of a value, if it has one.
//
// Ruled out: the fraction above the seconds; none for a bundle.
fn time_in(value: OscType) -> Option<u64>
    ensures { result ≡ time_in value }
{
    match value {
        OscType::Bundle(time) => Some(tag_bits(time)),
        OscType::Time(time) => Some(tag_bits(time)),
        _ => None,
    }
}

// Puts the line for a time, where there is one.
fn tell_time_in(rule: Rule, time: Option<u64>, out: &mut [u8]) -> usize
    ensures { Says (time_in_line rule time) out.new result }
{
    match time {
        Some(tag) => tell_tag(rule, tag, out),
        None => 0,
    }
}

// Puts the line for the time of record `index` of a table, and answers how long it is: 0 where the record has no time or is refused.
//
// Ruled out: a line for a record that is refused; the time by the other rule.
pub fn tell_record_time(rule: Rule, table: &[u8], index: usize, out: &mut [u8]) -> usize
    ensures { Says (record_time rule table.now index) out.new result }
{
    match look(table, index) {
        Ok(value) => tell_time_in(rule, time_in(value), out),
        Err(_) => 0,
    }
}
