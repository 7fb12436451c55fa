// What is told of a clock conversion: a number, and what is written through the caller's pointer by every call.
ghost use Rattle.std.specs.Prelude.{◌≡◌};
ghost use Rattle.told.specs.Times.{outside_number, tagged_number, tagged_beside, unix_number, unix_beside};

use clock::{OutOfRange, UnixTime};

// The number of a refusal in bits 56 to 63, and nothing below.
fn outside(reason: OutOfRange) -> u64
    ensures { result ≡ outside_number reason }
{
    clock::number_of(reason) as u64 * 0x100_0000_0000_0000
}

// A tag: 0, or the refusal; the tag is written, and 0 where refused.
//
// Ruled out: a refusal that leaves the caller's number as it was; 26 in the low bits.
pub fn tagged(answer: Result<u64, OutOfRange>, tag: &mut u64) -> u64
    ensures { (result ≡ tagged_number answer) × (tag.new ≡ tagged_beside answer) }
{
    match answer {
        Ok(at) => {
            *tag = at;
            0
        }
        Err(reason) => {
            *tag = 0;
            outside(reason)
        }
    }
}

// A Unix time: its nanoseconds, or the refusal; the seconds are written, and 0 where refused.
//
// Ruled out: 28 told as 28 nanoseconds; the nanoseconds in the place of the seconds.
pub fn unix(answer: Result<UnixTime, OutOfRange>, seconds: &mut i64) -> u64
    ensures { (result ≡ unix_number answer) × (seconds.new ≡ unix_beside answer) }
{
    match answer {
        Ok(time) => {
            *seconds = time.seconds;
            time.nanos
        }
        Err(reason) => {
            *seconds = 0;
            outside(reason)
        }
    }
}
