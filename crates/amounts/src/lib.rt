// How far a recording is slid (Ticket 13), as a word says it: signed seconds with a fraction, `-12` or `3.5`, or `hex:` and 16 digits. The
// answer is a number of 64 bits, 2^32 to a second; a slide back is by its opposite modulo 2^64.
#![tactic(auto)]

ghost use Rattle.std.specs.Prelude.{◌≡◌, ◌<◌};
ghost use Rattle.clock.specs.Nearest.{fraction_of};
ghost use Rattle.amounts.specs.Amounts.{joined_as, opposite_of, amount_of};

use time_words::{Plain, plain_of, tag_in};

// The nearest fraction of a second, halves up.
fn fraction_of(nanos: u64) -> u64
    requires { nanos < 1_000_000_000 }
    ensures { result ≡ fraction_of nanos }
{
    (nanos * 0x1_0000_0000 + 500_000_000) / 1_000_000_000
}

// Seconds and nanoseconds as one number: the seconds are at most 4,294,967,295.
fn joined(plain: Option<Plain>) -> Option<u64>
    ensures { result ≡ joined_as plain }
{
    let Plain { seconds, nanos } = plain?;
    if 0xffff_ffff < seconds {
        return None;
    }
    if 999_999_999 < nanos {
        return None;
    }
    Some(seconds * 0x1_0000_0000 + fraction_of(nanos))
}

// The opposite of a number, modulo 2^64.
fn opposite_of(amount: Option<u64>) -> Option<u64>
    ensures { result ≡ opposite_of amount }
{
    amount.map(|x| 0u64.wrapping_sub(x))
}

// The amount that a word says.
//
// Ruled out: seconds read as fractions of a second; a fraction rounded down; the sign of `-0.5` lost.
pub fn amount_of(word: &[u8]) -> Option<u64>
    ensures { result ≡ amount_of word.now }
{
    match word.strip_prefix(b"hex:") {
        Some(digits) => tag_in(digits),
        None => match word.strip_prefix(b"-") {
            Some(rest) => opposite_of(joined(plain_of(rest))),
            None => joined(plain_of(word)),
        },
    }
}
