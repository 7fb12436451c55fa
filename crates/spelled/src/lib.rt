// The bytes of a case as its line spells them: parts with '+' between them. A part is hexadecimal digits ("-" for none), a number, '*'
// and digits, their bytes so many times, or a number and '#', so many bundles, each in the one before it.
#![tactic(auto)]

pub mod listed; // listed.rt: a table as a line lists it

ghost use Rattle.spelled.specs.Put.{Put};

use words::hex;
use words::numeral::{decimal, number};

// A bundle's name and the immediate time tag.
const BUNDLE: [u8; 32] = *b"2362756E646C65000000000000000001";

// What stands before the first `byte` of a word and after it, where it has one.
fn parted(word: &[u8], byte: u8) -> Option<(&[u8], &[u8])> {
    let at = word.iter().position(|b| *b == byte)?;
    Some((&word[..at], &word[at + 1..]))
}

// Puts the bytes of the digits as often as `times` says.
fn put_times(times: u64, digits: &[u8], out: &mut [u8]) -> usize
    ensures { Put result out.old out.new }
{
    let mut at = 0;
    for _ in 0..times {
        at += hex::bytes(digits, &mut out[at..]);
    }
    at
}

// Puts a bundle of the immediate time tag, and if there are `n` bundles in it their size, 20 * n - 4.
fn put_bundle(n: u64, out: &mut [u8]) -> usize
    ensures { Put result out.old out.new }
{
    if out.len() < 20 {
        return 0;
    }
    hex::bytes(&BUNDLE, out);
    if n == 0 {
        return 16;
    }
    if 3276 < n {
        return 0;
    }
    let size = 20 * n as u32 - 4;
    out[16..20].copy_from_slice(&size.to_be_bytes());
    20
}

// Puts `n` bundles, each in the one before it.
fn put_nested(n: u64, out: &mut [u8]) -> usize
    ensures { Put result out.old out.new }
{
    let mut at = 0;
    for left in (0..n).rev() {
        at += put_bundle(left, &mut out[at..]);
    }
    at
}

// Puts the bytes of a part.
fn put_part(part: &[u8], out: &mut [u8]) -> usize
    ensures { Put result out.old out.new }
{
    if let Some((times, digits)) = parted(part, b'*') {
        return put_times(number(times, 0), digits, out);
    }
    if let [bundles @ .., b'#'] = part {
        return put_nested(number(bundles, 0), out);
    }
    hex::bytes(part, out)
}

// Puts the bytes that a word spells at the front of `out`, and says how many there are. What has no room is left out.
//
// Ruled out: more bytes than there is room for; parts put over each other.
pub fn put_bytes(word: &[u8], out: &mut [u8]) -> usize
    ensures { Put result out.old out.new }
{
    let mut done = 0;
    for part in word.split(|b| *b == b'+') {
        done += put_part(part, &mut out[done..]);
    }
    done
}

// Whether a word is a number.
pub fn is_number(word: &[u8]) -> bool {
    decimal(word).is_some()
}

// Whether a part spells bytes.
fn is_part(part: &[u8]) -> bool {
    if let Some((times, digits)) = parted(part, b'*') {
        return is_number(times) && hex::is_bytes(digits);
    }
    if let [bundles @ .., b'#'] = part {
        return is_number(bundles);
    }
    hex::is_bytes(part)
}

// Whether a word spells bytes. A last '+' may have nothing after it.
pub fn is_bytes(word: &[u8]) -> bool {
    let parts = word.strip_suffix(b"+").unwrap_or(word);
    !word.is_empty() && parts.split(|b| *b == b'+').all(is_part)
}
