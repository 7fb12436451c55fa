// A word as a Unix time: seconds in decimal, with a sign and a fraction where they are written.
ghost use Rattle.std.specs.Prelude.{◌≡◌, Some};
ghost use Rattle.time_words.specs.Seconds.{nanos_after, plain_of, since_it, before_it, seconds_in};

use wire::copy;
use words::line::until;
use words::numeral::decimal;

// The most seconds, before or after 1970.
const MOST: u64 = 0x7fff_ffff_ffff_ffff;

// The nanoseconds of a second.
const NANOS: u64 = 1_000_000_000;

// A time as a word says it.
#[derive(Clone, Copy)]
pub enum Moment {
    Tag(u64),
    Unix { seconds: i64, nanos: u64 },
}

// Seconds and nanoseconds without a sign.
#[derive(Clone, Copy)]
pub struct Plain {
    pub seconds: u64,
    pub nanos: u64,
}

// The nanoseconds of what stands after the seconds: nothing, or a dot and one to nine digits, which zeros fill up to nine.
//
// Ruled out: 5 nanoseconds for .5; the first nine of ten digits.
fn nanos_after(rest: &[u8]) -> Option<u64>
    ensures { result ≡ nanos_after rest.now }
{
    if rest.len() == 0 {
        return Some(0);
    }
    if rest.len() == 1 {
        return None;
    }
    if 10 < rest.len() {
        return None;
    }
    let mut nine = *b"000000000";
    copy(&rest[1..], &mut nine);
    decimal(&nine)
}

// The seconds and the nanoseconds of a word without a sign.
//
// Ruled out: three seconds for `3.`; the fraction of `3.5` dropped.
pub fn plain_of(word: &[u8]) -> Option<Plain>
    ensures { result ≡ plain_of word.now }
{
    let dot = until(word, 0, b'.');
    let seconds = decimal(&word[0..dot])?;
    let nanos = nanos_after(&word[dot..])?;
    Some(Plain { seconds, nanos })
}

impl Plain {
    // So much after 1970 began.
    #[tactic(auto, unfolding(crate::specs::Seconds::since_it))]
    fn since(self) -> Option<Moment>
        ensures { result ≡ since_it (Some self) }
    {
        if MOST < self.seconds {
            return None;
        }
        Some(Moment::Unix {
            seconds: self.seconds as i64,
            nanos: self.nanos,
        })
    }

    // So much before 1970 began: a part of a second counts from the second before.
    //
    // Ruled out: half a second after 1970 began for -0.5.
    #[tactic(auto, unfolding(crate::specs::Seconds::before_it))]
    fn before(self) -> Option<Moment>
        ensures { result ≡ before_it (Some self) }
    {
        if MOST < self.seconds {
            return None;
        }
        let seconds = self.seconds as i64;
        if 0 < self.nanos {
            return Some(Moment::Unix {
                seconds: -1 - seconds,
                nanos: NANOS.saturating_sub(self.nanos),
            });
        }
        Some(Moment::Unix {
            seconds: -seconds,
            nanos: 0,
        })
    }
}

// The Unix time of a word.
//
// Ruled out: a time for a word of no bytes; one after 1970 for a word with a minus.
pub fn seconds_of(word: &[u8]) -> Option<Moment>
    ensures { result ≡ seconds_in word.now }
{
    if word.is_empty() {
        return None;
    }
    if word[0] == b'-' {
        return plain_of(&word[1..])?.before();
    }
    plain_of(word)?.since()
}
