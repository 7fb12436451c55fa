// The C boundary: the public calls, each with its answer as one number of 64 bits. include/osc.h declares them for C and C++.
#![tactic(auto)]

ghost use Rattle.std.specs.Prelude.{◌≡◌};
ghost use Rattle.edition.specs.declared.Edition.TheVariants.{Rosc, Standard};
ghost use Rattle.edition.specs.declared.Framing.TheVariants.{Udp, Tcp, TcpVec};
ghost use Rattle.wire.specs.Pad.{pad_of};
ghost use Rattle.values.specs.Look.{look_at, started_at};
ghost use Rattle.encoder.specs.Outcome.{unframed, prefixed, framed_by};
ghost use Rattle.cues.specs.Cues.{cue_in};
ghost use Rattle.clock.specs.Clock.{tag_for, unix_for};
ghost use Rattle.clock.specs.Shift.{shifted, difference_of};
ghost use Rattle.clock.specs.declared.Rule.TheVariants as rule;
ghost use Rattle.told.specs.Told.{answer_of};
ghost use Rattle.told.specs.Times.{tagged_number, tagged_beside, unix_number, unix_beside};
ghost use Rattle.told.specs.Answers.{padded_number, looked_told, started_told, cue_told_as, cue_told, cue_beside};
ghost use Rattle.version.specs.Version.{version_number};
ghost use Rattle.apart.specs.Boundary.{osc_decode, osc_read_portion, osc_index_step, osc_encode, osc_encode_string, CMeets, check_number};
ghost use Rattle.apart.specs.Boundary.{osc_shift_table};

use clock::Rule;
use edition::{Edition, Framing};
use node::record;
use refusal::Refusal;
use told::times;

// A decoder by its framing, told as a number, and what is told beside it.
fn decode(framing: Framing, msg: &[u8], table: &mut [u8], depth: u64, more: &mut u64) -> u64
    ensures { CMeets (osc_decode framing msg.now table.old depth) result more.new table.new }
{
    let answer = decoder::decode(framing, msg, table, depth as usize);
    told::tell(told::of_decoded(answer, msg.len()), more)
}

// `decode_udp`: the count in bits 32 to 55 and the bytes left in bits 0 to 31, or the refusal's number in bits 56 to 63. `more` is written
// always: of what is accepted the padding bytes that are not zero, in bits 0 to 31; where a field was short (17 to 21) its offset, in
// bits 32 to 47; and 0 otherwise.
//
// Ruled out: a refusal told in the bits of the bytes left; a byte of the table changed where a refusal is told.
#[unsafe(no_mangle)]
pub extern "C" fn osc_decode_udp(msg: &[u8], table: &mut [u8], depth: u64, more: &mut u64) -> u64
    ensures { CMeets (osc_decode Udp msg.now table.old depth) result more.new table.new }
{
    decode(Framing::Udp, msg, table, depth, more)
}

// `decode_tcp` of edition 1, told in the same way; Waiting is count 0 with the whole input left: no other answer of it has 0 records.
//
// Ruled out: Waiting told as 0 bytes left; as many left as the table has bytes.
#[unsafe(no_mangle)]
pub extern "C" fn osc_decode_tcp(msg: &[u8], table: &mut [u8], depth: u64, more: &mut u64) -> u64
    ensures { CMeets (osc_decode (Tcp Rosc) msg.now table.old depth) result more.new table.new }
{
    decode(Framing::Tcp(Edition::Rosc), msg, table, depth, more)
}

// `decode_tcp_vec` of edition 1, told in the same way; it never waits, and count 0 with the whole input left is a list of no packets.
//
// Ruled out: the first packet of the list alone; the depth limit cut to 32 bits, so that 2^32 passes for 0.
#[unsafe(no_mangle)]
pub extern "C" fn osc_decode_tcp_vec(
    msg: &[u8],
    table: &mut [u8],
    depth: u64,
    more: &mut u64,
) -> u64
    ensures { CMeets (osc_decode (TcpVec Rosc) msg.now table.old depth) result more.new table.new }
{
    decode(Framing::TcpVec(Edition::Rosc), msg, table, depth, more)
}

// `decode_tcp` of edition 2, told in the same way.
//
// Ruled out: a bundle that takes the next frame for its elements; 21 told of three bytes, which wait.
#[unsafe(no_mangle)]
pub extern "C" fn osc_decode_tcp2(msg: &[u8], table: &mut [u8], depth: u64, more: &mut u64) -> u64
    ensures { CMeets (osc_decode (Tcp Standard) msg.now table.old depth) result more.new table.new }
{
    decode(Framing::Tcp(Edition::Standard), msg, table, depth, more)
}

// `decode_tcp_vec` of edition 2, told in the same way. Where a frame is refused, its number stands above the count of the records before
// it and the bytes left, which are 4 at least there and 0 where the whole call is refused; `more` has the dirty padding and the field's
// offset side by side then, and the frame's offset in bits 48 to 63.
//
// Ruled out: a refused frame told without the packets before it; the offset of the field in the place of the frame's.
#[unsafe(no_mangle)]
pub extern "C" fn osc_decode_tcp_vec2(
    msg: &[u8],
    table: &mut [u8],
    depth: u64,
    more: &mut u64,
) -> u64
    ensures { CMeets (osc_decode (TcpVec Standard) msg.now table.old depth) result more.new table.new }
{
    decode(Framing::TcpVec(Edition::Standard), msg, table, depth, more)
}

// A step over a stream of edition 2 that comes in portions: `bytes` are what was kept of it and what came after that. The count in bits 32
// to 55, and in bits 0 to 31 the bytes that were used: those from there on are to be kept; or the number of the call's refusal in bits
// 56 to 63. `more` has the dirty padding, and where the frame after the used bytes is refused, which ends the stream, the field's offset in
// bits 32 to 47 and the refusal's number in bits 48 to 63.
//
// Ruled out: the bytes of a frame that is not all there told as used; a frame's refusal told as the call's.
#[unsafe(no_mangle)]
pub extern "C" fn osc_read_portion(
    bytes: &[u8],
    table: &mut [u8],
    depth: u64,
    more: &mut u64,
) -> u64
    ensures { CMeets (osc_read_portion bytes.now table.old depth) result more.new table.new }
{
    let portion = portions::read_portion(bytes, table, depth as usize);
    told::tell(told::of_portion(portion), more)
}

// A step that writes the cue index of a recording in edition 2: `bytes` stand at offset `base` of it. The records written to `out` in bits
// 32 to 55, and in bits 0 to 31 the bytes that were used: the next step begins after them; or the number of the call's refusal in bits 56
// to 63. `more` is 1 where the frame after the used bytes is not all there, and 0 otherwise; where that frame is refused, which ends the
// index, it has the number of the refusal in bits 48 to 63, and where its field began that was short in bits 32 to 47, counted from the
// first of `bytes`.
//
// Ruled out: a refused frame told as one that is not all there; a field that was short told by its offset in the frame.
#[unsafe(no_mangle)]
pub extern "C" fn osc_index_step(bytes: &[u8], base: u64, out: &mut [u8], more: &mut u64) -> u64
    ensures { CMeets (osc_index_step bytes.now base out.old) result more.new out.new }
{
    let indexed = cues::index_step(bytes, base, out);
    told::tell(told::of_indexed(indexed), more)
}

// A step that checks an index: the records `fresh`, written for a part of the recording, against as many bytes of the index, where the
// first is record number `from`. The number of the next record in bits 0 to 55; or 25 in bits 56 to 63, and below it the number of the
// first record that differs, is missing or is extra. A number or a length of 2^55 or more is refused with 1.
//
// Ruled out: the number of a record in this part told as that in the index; a part of a record after the last accepted.
#[unsafe(no_mangle)]
pub extern "C" fn osc_index_check_step(fresh: &[u8], given: &[u8], from: u64) -> u64
    ensures { result ≡ check_number fresh.now given.now from }
{
    if 0x80_0000_0000_0000 <= from {
        return told::refused(Refusal::TooLong);
    }
    if 0x80_0000_0000_0000 <= fresh.len() {
        return told::refused(Refusal::TooLong);
    }
    if 0x80_0000_0000_0000 <= given.len() {
        return told::refused(Refusal::TooLong);
    }
    told::checked(cues::compare_from(from as usize, fresh, given))
}

// A cue by its number in an index: the records of its table in bits 32 to 55, its length without the prefix in bits 0 to 31, and the
// offset of its prefix in `offset`; or 11 in bits 56 to 63, and the offset 0.
//
// Ruled out: refusal 11 told as a cue of no records; the offset after the prefix.
#[unsafe(no_mangle)]
pub extern "C" fn osc_cue(index: &[u8], k: u64, offset: &mut u64) -> u64
    ensures { (result ≡ answer_of (cue_told (cue_told_as (cue_in index.now k))))
        × (offset.new ≡ cue_beside (cue_told_as (cue_in index.now k))) }
{
    let cue = cues::cue_at(index, k);
    *offset = told::cue_offset(cue);
    told::cue(cue)
}

// `encode`: the bytes written in bits 0 to 31, or the refusal's number in bits 56 to 63.
//
// Ruled out: fewer bytes told than were written; the count cut to 32 bits, so that 2^32 + 1 passes for 1.
#[unsafe(no_mangle)]
pub extern "C" fn osc_encode(table: &[u8], count: u64, source: &[u8], out: &mut [u8]) -> u64
    ensures { CMeets (osc_encode unframed table.now count source.now out.old) result 0 out.new }
{
    told::encoded(encoder::encode(table, count as usize, source, out))
}

// `encode_tcp` of edition 1, told in the same way.
//
// Ruled out: a message without its length; refusal 12 told as 12 bytes written.
#[unsafe(no_mangle)]
pub extern "C" fn osc_encode_tcp(table: &[u8], count: u64, source: &[u8], out: &mut [u8]) -> u64
    ensures { CMeets (osc_encode prefixed table.now count source.now out.old) result 0 out.new }
{
    told::encoded(encoder::encode_tcp(Edition::Rosc, table, count as usize, source, out))
}

// `encode_tcp` of edition 2, told in the same way.
//
// Ruled out: a bundle without its length; the length told without its own four bytes.
#[unsafe(no_mangle)]
pub extern "C" fn osc_encode_tcp2(table: &[u8], count: u64, source: &[u8], out: &mut [u8]) -> u64
    ensures { CMeets (osc_encode (framed_by Standard) table.now count source.now out.old)
        result 0 out.new }
{
    told::encoded(encoder::encode_tcp(Edition::Standard, table, count as usize, source, out))
}

// `encode_string`, told in the same way.
//
// Ruled out: the text's own length told, without its NULs; refusal 4 told as 4 bytes written.
#[unsafe(no_mangle)]
pub extern "C" fn osc_encode_string(text: &[u8], out: &mut [u8]) -> u64
    ensures { CMeets (osc_encode_string text.now out.old) result 0 out.new }
{
    told::encoded(encoder::encode_string(text, out))
}

// `shift_table`: the tags moved in bits 0 to 31, or 11 in bits 56 to 63: also of a count of 2^32 or more, whose tags have no room.
//
// Ruled out: the records told in place of their tags; the count cut to 32 bits, so that 2^32 + 1 passes for 1.
#[unsafe(no_mangle)]
pub extern "C" fn osc_shift_table(table: &mut [u8], count: u64, by: u64) -> u64
    ensures { CMeets (osc_shift_table table.old count by) result 0 table.new }
{
    if 0x1_0000_0000 <= count {
        return told::refused(Refusal::BadTable);
    }
    match shifts::shift_table(table, count as usize, by) {
        Ok(n) => told::low(n as u32),
        Err(refusal) => told::refused(refusal),
    }
}

// `pad`: the padded position, or 14, which is no multiple of 4.
//
// Ruled out: 14 in bits 56 to 63, where a position may stand; the position as it was handed over.
#[unsafe(no_mangle)]
pub extern "C" fn osc_pad(pos: u64) -> u64
    ensures { result ≡ padded_number (pad_of pos) }
{
    match wire::pad(pos) {
        Ok(at) => at,
        Err(refusal) => refusal::number_of(refusal) as u64,
    }
}

// `look`: the kind in the low byte and nothing above, or the refusal's number in bits 56 to 63.
//
// Ruled out: 0 for a record whose own rules do not hold; one kind for both truth values.
#[unsafe(no_mangle)]
pub extern "C" fn osc_look(table: &[u8], index: u64) -> u64
    ensures { result ≡ answer_of (looked_told (look_at table.now index)) }
{
    match values::look::look(table, index as usize) {
        Ok(_) => told::low(record::kind_at(table, index as usize) as u32),
        Err(refusal) => told::refused(refusal),
    }
}

// `start_of`: the start in bits 0 to 31, or the refusal's number in bits 56 to 63.
//
// Ruled out: refusal 11 told as the start 11; the start of the first record for each.
#[unsafe(no_mangle)]
pub extern "C" fn osc_start(table: &[u8], index: u64) -> u64
    ensures { result ≡ answer_of (started_told (started_at table.now index)) }
{
    match values::look::start_of(table, index as usize) {
        Ok(start) => told::low(start),
        Err(refusal) => told::refused(refusal),
    }
}

// The version: its major in bits 32 to 47, its minor in bits 16 to 31 and its patch in bits 0 to 15. It is never refused.
//
// Ruled out: the number of another version; minor and patch exchanged.
#[unsafe(no_mangle)]
pub extern "C" fn osc_version() -> u64
    ensures { result ≡ version_number }
{
    version::number()
}

// `tag_of` by rule A: 0, and the tag in `tag`; or the refusal's number in bits 56 to 63, and the tag 0.
//
// Ruled out: a refusal that leaves `tag` as it was; the tag of a second that rule B alone allows.
#[unsafe(no_mangle)]
pub extern "C" fn osc_tag_a(seconds: i64, nanos: u64, tag: &mut u64) -> u64
    ensures { (result ≡ tagged_number (tag_for rule.A seconds nanos)) × (tag.new ≡ tagged_beside (tag_for rule.A seconds nanos)) }
{
    times::tagged(clock::tag_of(Rule::A, seconds, nanos), tag)
}

// `tag_of` by rule B, told in the same way.
//
// Ruled out: 27 for the first second after the wrap of 2036; nanoseconds cut to 32 bits, so that 2^32 passes for 0.
#[unsafe(no_mangle)]
pub extern "C" fn osc_tag_b(seconds: i64, nanos: u64, tag: &mut u64) -> u64
    ensures { (result ≡ tagged_number (tag_for rule.B seconds nanos)) × (tag.new ≡ tagged_beside (tag_for rule.B seconds nanos)) }
{
    times::tagged(clock::tag_of(Rule::B, seconds, nanos), tag)
}

// `unix_of` by rule A: the nanoseconds in bits 0 to 31, and the seconds in `seconds`; or 28 in bits 56 to 63, and 0 seconds.
//
// Ruled out: 28 told as 28 nanoseconds; seconds left where 28 is told.
#[unsafe(no_mangle)]
pub extern "C" fn osc_unix_a(tag: u64, seconds: &mut i64) -> u64
    ensures { (result ≡ unix_number (unix_for rule.A tag)) × (seconds.new ≡ unix_beside (unix_for rule.A tag)) }
{
    times::unix(clock::unix_of(Rule::A, tag), seconds)
}

// `unix_of` by rule B, told in the same way.
//
// Ruled out: 28 for the tag 0, which is in 2036; a time of 2036 for a tag with its top bit set.
#[unsafe(no_mangle)]
pub extern "C" fn osc_unix_b(tag: u64, seconds: &mut i64) -> u64
    ensures { (result ≡ unix_number (unix_for rule.B tag)) × (seconds.new ≡ unix_beside (unix_for rule.B tag)) }
{
    times::unix(clock::unix_of(Rule::B, tag), seconds)
}

// `shift`: the tag moved on, modulo 2^64.
//
// Ruled out: the highest tag where the sum would pass it; the amount cut to 32 bits.
#[unsafe(no_mangle)]
pub extern "C" fn osc_shift(tag: u64, by: u64) -> u64
    ensures { result ≡ shifted tag by }
{
    clock::shift(tag, by)
}

// `difference`: of a tag from an old one, around the wrap, as a signed number.
//
// Ruled out: the highest number for tags 2^63 apart; the difference of the old tag from the new one.
#[unsafe(no_mangle)]
pub extern "C" fn osc_difference(tag: u64, old: u64) -> i64
    ensures { result ≡ difference_of tag old }
{
    clock::difference(tag, old)
}
