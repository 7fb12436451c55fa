// What stands on the wire: big-endian numbers (nom's `be_u32` and `be_u64`), ranges and copies of bytes, and the next multiple of 4
// (encoder.rs, `pad`); and the limits of document 01.
#![tactic(auto)]

ghost use Rattle.std.specs.Prelude.{◌≡◌, ◌+◌, ◌/◌, ◌%◌, ◌^◌, ◌≤◌, ◌<◌, length, drop, get_or};
ghost use Rattle.wire.specs.Number.{number, bytes};
ghost use Rattle.wire.specs.CodeNumber.{LowFirst, high_first};
ghost use Rattle.wire.specs.Pad.{pad_of};
ghost use Rattle.wire.specs.Part.{part, inside};
ghost use Rattle.wire.specs.Wrote.{Wrote};

use refusal::Refusal;

// The most bytes of a decode input or of an encoded result.
pub const LONGEST: usize = 65_535;

// The most bytes of a packet that stands after a prefix.
pub const LONGEST_FRAMED: usize = 65_531;

// The highest depth limit, and the encoders'.
pub const DEEPEST: usize = 64;

// One byte, widened.
fn byte_at(s: &[u8], at: usize) -> u32
    requires { at < length s.now }
    ensures { (result < 256) × (result ≡ get_or s.now at 0) }
{
    s[at] as u32
}

// The 4 bytes from `at` on with the first one lowest: compiled to one load, which big-endian order is only where a number has one use.
fn le_u32(s: &[u8], at: usize) -> u32
    requires { at + 4 ≤ length s.now }
    ensures { LowFirst s.now at result }
{
    byte_at(s, at)
        + byte_at(s, at + 1) * 0x100
        + byte_at(s, at + 2) * 0x1_0000
        + byte_at(s, at + 3) * 0x100_0000
}

// The number with its 4 bytes in the opposite order: compiled to one instruction, and the bytes that it is cut into to one store.
fn turned(x: u32) -> u32
    ensures { result ≡ high_first x }
{
    x % 0x100 * 0x100_0000
        + x / 0x100 % 0x100 * 0x1_0000
        + x / 0x1_0000 % 0x100 * 0x100
        + x / 0x100_0000
}

// The number of the 4 bytes from `at` on.
pub fn be_u32(s: &[u8], at: usize) -> u32
    requires { at + 4 ≤ length s.now }
    ensures { result ≡ number 4 (drop at s.now) }
{
    turned(le_u32(s, at))
}

// The 8 bytes from `at` on with the first one lowest.
fn le_u64(s: &[u8], at: usize) -> u64
    requires { at + 8 ≤ length s.now }
    ensures { LowFirst s.now at (result % 2 ^ 32) × LowFirst s.now (at + 4) (result / 2 ^ 32) }
{
    le_u32(s, at) as u64 + le_u32(s, at + 4) as u64 * 0x1_0000_0000
}

// The number of the 8 bytes from `at` on.
pub fn be_u64(s: &[u8], at: usize) -> u64
    requires { at + 8 ≤ length s.now }
    ensures { result ≡ number 8 (drop at s.now) }
{
    let x = le_u64(s, at);
    turned((x % 0x1_0000_0000) as u32) as u64 * 0x1_0000_0000
        + turned((x / 0x1_0000_0000) as u32) as u64
}

// The 4 bytes of x over the first 4 of out. By `to_be_bytes`, tables took three quarters longer to write.
pub fn put_u32(out: &mut [u8], x: u32)
    requires { 4 ≤ length out.old }
    ensures { Wrote (bytes 4 x) out.old out.new }
{
    let y = turned(x);
    out[0] = (y % 256) as u8;
    out[1] = (y / 0x100 % 256) as u8;
    out[2] = (y / 0x1_0000 % 256) as u8;
    out[3] = (y / 0x100_0000) as u8;
}

// The 8 bytes of x over the first 8 of out.
pub fn put_u64(out: &mut [u8], x: u64)
    requires { 8 ≤ length out.old }
    ensures { Wrote (bytes 8 x) out.old out.new }
{
    put_u32(out, (x / 0x1_0000_0000) as u32);
    put_u32(&mut out[4..], (x % 0x1_0000_0000) as u32);
}

// Whether a range lies in a slice. Both numbers are below 2^32, so no sum of 64 bits wraps.
pub fn lies_in(s: &[u8], offset: u32, count: u32) -> bool
    ensures { result ≡ inside s.now offset count }
{
    offset as usize + count as usize <= s.len()
}

// The part of a slice that a range names.
pub fn range(s: &[u8], offset: u32, count: u32) -> &[u8]
    requires { offset + count ≤ length s.now }
    ensures { result.now ≡ part s.now offset count }
{
    let from = offset as usize;
    let to = from + count as usize;
    &s[from..to]
}

// The bytes over the first ones of out, one by one: compiled to large steps where they are many. `copy_from_slice` would be a call of
// `memmove`, and what is exported for C needs no C library.
fn copy_bytes(bytes: &[u8], out: &mut [u8])
    requires { length bytes.now ≤ length out.old }
    ensures { Wrote bytes.now out.old out.new }
{
    for (i, byte) in bytes.iter().enumerate() {
        out[i] = *byte;
    }
}

// The same in steps of 8: the last step ends where the bytes end, and may write some of them again.
fn copy_eights(bytes: &[u8], out: &mut [u8])
    requires { (8 ≤ length bytes.now) × (length bytes.now ≤ length out.old) }
    ensures { Wrote bytes.now out.old out.new }
{
    let last = bytes.len() - 8;
    for i in (0..last).step_by(8) {
        put_u64(&mut out[i..], be_u64(bytes, i));
    }
    put_u64(&mut out[last..], be_u64(bytes, last));
}

// The same of 4 to 8 bytes: the first 4 and the last 4.
fn copy_fours(bytes: &[u8], out: &mut [u8])
    requires { (4 ≤ length bytes.now) × (length bytes.now ≤ 8) × (length bytes.now ≤ length out.old) }
    ensures { Wrote bytes.now out.old out.new }
{
    let last = bytes.len() - 4;
    put_u32(out, be_u32(bytes, 0));
    put_u32(&mut out[last..], be_u32(bytes, last));
}

// The bytes over the first ones of out. Fewer than 4 have an arm of their own, for which a small loop is compiled.
pub fn copy(bytes: &[u8], out: &mut [u8])
    requires { length bytes.now ≤ length out.old }
    ensures { Wrote bytes.now out.old out.new }
{
    match bytes.len() {
        0..4 => copy_bytes(bytes, out),
        4..8 => copy_fours(bytes, out),
        8..64 => copy_eights(bytes, out),
        _ => copy_bytes(bytes, out),
    }
}

// The next multiple of 4: the position itself where it is one.
//
// Ruled out: 4 for the position 0; a wrapped 0 for a position over 2^64 - 4.
pub fn pad(pos: u64) -> Result<u64, Refusal>
    ensures { result ≡ pad_of pos }
{
    if 0xffff_ffff_ffff_fffc < pos {
        return Err(Refusal::PadOverflow);
    }
    Ok((pos + 3) / 4 * 4)
}
