// Clock conversion (document 02, Ticket 7), and shifts of time tags (Tickets 7 and 13). A tag is a number of 64 bits: seconds since 1900
// in its upper half, fractions of a second in its lower half.
#![tactic(auto)]

mod laws; // laws.rt: what Ticket 7 demands of the calls together
mod sums; // sums.rt: what Ticket 13 demands of shifts

ghost use Rattle.std.specs.Prelude.{◌≡◌, ◌^◌, ◌<◌};
ghost use Rattle.clock.specs.Nearest.{fraction_of, nanos_of};
ghost use Rattle.clock.specs.Clock.{clock_number, last_of, since1900, tag_for, unix_for};
ghost use Rattle.clock.specs.Shift.{shifted, difference_of};

// The nanoseconds of a second.
const NANOS: u64 = 1_000_000_000;

// The fractions of a second, which is also what one second adds to a tag.
const FRACTIONS: u64 = 0x1_0000_0000;

// The seconds from 1900 to 1970.
const EPOCH: u64 = 2_208_988_800;

// What a seconds field stands for. The caller chooses.
#[derive(Clone, Copy, Debug, PartialEq, Eq)]
pub enum Rule {
    // As rosc reads it: the seconds since 1900, which end in 2036.
    A,
    // As RFC 4330 reads it: a field with its top bit clear is after the wrap of 2036.
    B,
}

// Why there is no answer.
#[derive(Clone, Copy, Debug, PartialEq, Eq)]
pub enum OutOfRange {
    // Nanoseconds of 10^9 or more.
    Nanoseconds,
    // Later than the rule allows.
    TooLate,
    // Before 1970, after any carry.
    TooEarly,
}

// The number of a refusal in document 02.
//
// Ruled out: one number for a time that is too late and one that is too early; 26 for each.
pub fn number_of(reason: OutOfRange) -> u8
    ensures { result ≡ clock_number reason }
{
    match reason {
        OutOfRange::Nanoseconds => 26,
        OutOfRange::TooLate => 27,
        OutOfRange::TooEarly => 28,
    }
}

// The last Unix second that a rule allows.
fn last_of(rule: Rule) -> u64
    ensures { result ≡ last_of rule }
{
    match rule {
        Rule::A => 2_085_978_495,
        Rule::B => 4_233_462_143,
    }
}

// The fraction that is nearest to some nanoseconds. The product is below 2^62.
fn fraction_of(nanos: u64) -> u64
    requires { nanos < 1_000_000_000 }
    ensures { result ≡ fraction_of nanos }
{
    (nanos * FRACTIONS + NANOS / 2) / NANOS
}

// The nanoseconds that are nearest to a fraction. The product is below 2^62.
fn nanos_of(fraction: u64) -> u64
    requires { fraction < 2 ^ 32 }
    ensures { result ≡ nanos_of fraction }
{
    (fraction * NANOS + FRACTIONS / 2) / FRACTIONS
}

// The tag of a Unix time. No carry happens here: the highest fraction of any nanoseconds is 2^32 - 4.
//
// Ruled out: a tag for the second after the rule's last; 27 or 28 where 26 holds too.
pub fn tag_of(rule: Rule, seconds: i64, nanos: u64) -> Result<u64, OutOfRange>
    ensures { result ≡ tag_for rule seconds nanos }
{
    if NANOS <= nanos {
        return Err(OutOfRange::Nanoseconds);
    }
    let Ok(s) = u64::try_from(seconds) else {
        return Err(OutOfRange::TooEarly);
    };
    if last_of(rule) < s {
        return Err(OutOfRange::TooLate);
    }
    Ok((s + EPOCH) % FRACTIONS * FRACTIONS + fraction_of(nanos))
}

// The seconds since 1900 that a seconds field stands for.
fn since_1900(rule: Rule, field: u64) -> u64
    requires { field < 2 ^ 32 }
    ensures { result ≡ since1900 rule field }
{
    match rule {
        Rule::A => field,
        Rule::B => {
            if field < FRACTIONS / 2 {
                field + FRACTIONS
            } else {
                field
            }
        }
    }
}

// A Unix time: seconds since 1970 began, and nanoseconds.
#[derive(Clone, Copy)]
pub struct UnixTime {
    pub seconds: i64,
    pub nanos: u64,
}

// The Unix time of a tag. A fraction that rounds to a full second carries, also past the rule's last second.
//
// Ruled out: halves rounded down; 10^9 nanoseconds in an answer; 28 for a tag that reaches 1970 by its carry.
pub fn unix_of(rule: Rule, tag: u64) -> Result<UnixTime, OutOfRange>
    ensures { result ≡ unix_for rule tag }
{
    let nanos = nanos_of(tag % FRACTIONS);
    let seconds = since_1900(rule, tag / FRACTIONS) + nanos / NANOS;
    if seconds < EPOCH {
        return Err(OutOfRange::TooEarly);
    }
    Ok(UnixTime {
        seconds: (seconds - EPOCH) as i64,
        nanos: nanos % NANOS,
    })
}

// A tag moved on by an amount, modulo 2^64.
//
// Ruled out: a tag that stays at the highest where it would pass it; the tag moved back by the amount.
pub fn shift(tag: u64, by: u64) -> u64
    ensures { result ≡ shifted tag by }
{
    tag.wrapping_add(by)
}

// The difference of a tag from an old one, around the wrap.
//
// Rules out: the highest number in place of the lowest for tags 2^63 distance; the difference of the old tag from the new one.
pub fn difference(tag: u64, old: u64) -> i64
    ensures { result ≡ difference_of tag old }
{
    tag.wrapping_sub(old).cast_signed()
}
