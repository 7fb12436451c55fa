// What is told at the C boundary: one record, packed once into the 64 bits of an answer and those of `more`, and the record of each
// answer. include/osc.h takes both numbers apart again.
#![tactic(auto)]

pub mod times; // times.rt: what is told of a clock conversion

ghost use Rattle.std.specs.Prelude.{◌≡◌, ◌<◌};
ghost use Rattle.told.specs.Told.{Bounded, answer_of, more_of};
ghost use Rattle.told.specs.Answers.{told_answer, told_refusal, told_number, decoded_told, portion_told, indexed_told, encoded_told};
ghost use Rattle.told.specs.Answers.{cue_told_as, cue_told, cue_beside, checked_number};

use refusal::Refusal;
use results::{CueAt, Decoded, End, IndexDiffers, Indexed, Portion};

// The parts of what is told.
#[derive(Clone, Copy)]
pub struct Told {
    // Of the answer: a refusal's number in bits 56 to 63, the count in bits 32 to 55, the low number in bits 0 to 31.
    pub number: u64,
    pub count: u64,
    pub low: u64,
    // Of `more`: dirty padding in bits 0 to 31, a field's offset in bits 32 to 47, the frame's part in bits 48 to 63.
    pub dirty: u64,
    pub field: u64,
    pub frame: u64,
}

// The 64 bits of an answer.
//
// Ruled out: a refusal's number in the low bits; the count below the low number.
fn answer_of(told: Told) -> u64
    requires { Bounded told }
    ensures { result ≡ answer_of told }
{
    told.number * 0x100_0000_0000_0000 + (told.count * 0x1_0000_0000 + told.low)
}

// The 64 bits of `more`.
//
// Ruled out: the offset of a field in the place of the frame's; an offset in the low bits.
fn more_of(told: Told) -> u64
    requires { Bounded told }
    ensures { result ≡ more_of told }
{
    told.dirty + told.field * 0x1_0000_0000 + told.frame * 0x1_0000_0000_0000
}

// Tells both numbers: `more` is written always.
//
// Ruled out: `more` left as it was where there is an answer; the answer's bits in the place of `more`.
pub fn tell(told: Told, more: &mut u64) -> u64
    requires { Bounded told }
    ensures { (result ≡ answer_of told) × (more.new ≡ more_of told) }
{
    *more = more_of(told);
    answer_of(told)
}

// An answer: a count, the low number and dirty padding.
fn told_answer(count: usize, low: usize, dirty: usize) -> Told
    ensures { result ≡ told_answer count low dirty }
{
    Told {
        number: 0,
        count: count as u64,
        low: low as u64,
        dirty: dirty as u64,
        field: 0,
        frame: 0,
    }
}

// A refused call, with the offset of a field that was short.
fn told_refusal(refusal: Refusal) -> Told
    ensures { result ≡ told_refusal refusal }
{
    Told {
        number: refusal::number_of(refusal) as u64,
        count: 0,
        low: 0,
        dirty: 0,
        field: refusal::offset_of(refusal) as u64,
        frame: 0,
    }
}

// A refused call, by its number alone.
fn told_number(refusal: Refusal) -> Told
    ensures { result ≡ told_number refusal }
{
    Told {
        number: refusal::number_of(refusal) as u64,
        count: 0,
        low: 0,
        dirty: 0,
        field: 0,
        frame: 0,
    }
}

// A decoder's answer to `len` bytes.
//
// Ruled out: Waiting told as 0 bytes left; a list that stops told without its frame's refusal.
pub fn of_decoded(answer: Result<Decoded, Refusal>, len: usize) -> Told
    ensures { result ≡ decoded_told len answer }
{
    match answer {
        Ok(Decoded::Packets { count, left, dirty }) => told_answer(count, left, dirty),
        Ok(Decoded::Waiting) => told_answer(0, len, 0),
        Ok(
            Decoded::Stopped {
                count,
                left,
                dirty,
                refusal,
                frame,
            },
        ) => Told {
            number: refusal::number_of(refusal) as u64,
            count: count as u64,
            low: left as u64,
            dirty: dirty as u64,
            field: refusal::offset_of(refusal) as u64,
            frame: frame as u64,
        },
        Err(refusal) => told_refusal(refusal),
    }
}

// The answer of a step over a stream.
//
// Ruled out: a frame's refusal told as the call's; a stream that ended told as one that goes on.
pub fn of_portion(answer: Result<Portion, Refusal>) -> Told
    ensures { result ≡ portion_told answer }
{
    match answer {
        Ok(Portion::Read { count, used, dirty }) => told_answer(count, used, dirty),
        Ok(
            Portion::Ended {
                count,
                used,
                dirty,
                refusal,
            },
        ) => Told {
            number: 0,
            count: count as u64,
            low: used as u64,
            dirty: dirty as u64,
            field: refusal::offset_of(refusal) as u64,
            frame: refusal::number_of(refusal) as u64,
        },
        Err(refusal) => told_number(refusal),
    }
}

// The answer of a step that writes an index. The refusal of a frame has its field's offset from the frame's prefix on, which stands at
// `used`; it is told from the call's first byte on.
//
// Ruled out: a refused frame told as one that is not all there; the offset of its field left out, or counted from the frame.
pub fn of_indexed(answer: Result<Indexed, Refusal>) -> Told
    requires { Bounded (indexed_told answer) }
    ensures { result ≡ indexed_told answer }
{
    match answer {
        Ok(Indexed { records, used, end }) => match end {
            End::Whole => told_answer(records, used, 0),
            End::Waiting => told_answer(records, used, 1),
            End::Refused(refusal) => Told {
                number: 0,
                count: records as u64,
                low: used as u64,
                dirty: 0,
                field: refusal::offset_of(refusal::moved_refusal(used, refusal)) as u64,
                frame: refusal::number_of(refusal) as u64,
            },
        },
        Err(refusal) => told_number(refusal),
    }
}

// The number of a refusal in bits 56 to 63, and nothing below.
//
// Ruled out: the number in the low bits; one number for all refusals.
pub fn refused(refusal: Refusal) -> u64
    ensures { result ≡ answer_of (told_number refusal) }
{
    answer_of(told_number(refusal))
}

// A number of 32 bits as an answer.
//
// Ruled out: the number in the bits of the count; its half.
pub fn low(number: u32) -> u64
    ensures { result ≡ answer_of (told_answer 0 number 0) }
{
    number as u64
}

// An encoder's answer, which has nothing beside it.
//
// Ruled out: fewer bytes told than were written; refusal 12 told as 12 bytes written.
pub fn encoded(answer: Result<usize, Refusal>) -> u64
    ensures { (result ≡ answer_of (encoded_told answer)) × (0 ≡ more_of (encoded_told answer)) }
{
    match answer {
        Ok(n) => n as u64,
        Err(refusal) => refused(refusal),
    }
}

// A cue that was looked up: 11 where its records have no room in 24 bits, which is in no index that was checked.
//
// Ruled out: refusal 11 told as a cue of no records; the length in the place of the records.
pub fn cue(answer: Result<CueAt, Refusal>) -> u64
    ensures { result ≡ answer_of (cue_told (cue_told_as answer)) }
{
    match answer {
        Ok(cue) => {
            if cue.records < 0x100_0000 {
                return answer_of(told_answer(cue.records as usize, cue.size as usize, 0));
            }
            refused(Refusal::BadTable)
        }
        Err(refusal) => refused(refusal),
    }
}

// What is told beside it: the offset of its prefix, and 0 where there is no cue.
//
// Ruled out: the offset after the prefix; an offset left where 11 is told.
pub fn cue_offset(answer: Result<CueAt, Refusal>) -> u64
    ensures { result ≡ cue_beside (cue_told_as answer) }
{
    match answer {
        Ok(cue) => {
            if cue.records < 0x100_0000 {
                return cue.offset;
            }
            0
        }
        Err(_) => 0,
    }
}

// A check of an index, by the numbers of its records.
//
// Ruled out: 25 without the record that differs; a record's number in bits 56 to 63.
pub fn checked(answer: Result<usize, IndexDiffers>) -> u64
    requires { checked_number answer < 0x1_0000_0000_0000_0000 }
    ensures { result ≡ checked_number answer }
{
    match answer {
        Ok(k) => k as u64,
        Err(differs) => results::INDEX_DIFFERS as u64 * 0x100_0000_0000_0000 + differs.at as u64,
    }
}
