// Bytes as pairs of upper-case hexadecimal digits, "-" for none.
ghost use Rattle.std.specs.Prelude.{◌≡◌, ◌≤◌, ◌<◌, length};

use crate::numeral::digit;
use std::fmt;

// Whether each byte of a word is a digit.
fn all_digits(word: &[u8]) -> bool {
    word.iter().all(|byte| digit(*byte).is_some())
}

// Whether a word gives bytes.
pub fn is_bytes(word: &[u8]) -> bool {
    word == b"-".as_slice() || !word.is_empty() && word.len() % 2 == 0 && all_digits(word)
}

// The byte of two digits.
fn paired(high: u8, low: u8) -> u8 {
    digit(high).unwrap_or(0) * 16 + digit(low).unwrap_or(0)
}

// Puts the bytes that a word gives at the front of `out`, and says how many there are. What has no room is left out.
//
// Ruled out: more bytes than there is room for.
pub fn bytes(word: &[u8], out: &mut [u8]) -> usize
    ensures { (result ≤ length out.new) × (length out.new ≡ length out.old) }
{
    let count = out.len().min(word.len() / 2);
    for (i, pair) in word.chunks_exact(2).take(count).enumerate() {
        out[i] = paired(pair[0], pair[1]);
    }
    count
}

// The digits.
const DIGITS: [&str; 16] = [
    "0", "1", "2", "3", "4", "5", "6", "7", "8", "9", "A", "B", "C", "D", "E", "F",
];

// Bytes as they are written.
#[derive(Clone, Copy)]
pub struct Hex<'a>(pub &'a [u8]);

impl fmt::Display for Hex<'_> {
    // Each digit is put by itself: `{byte:02X}` takes twice as long.
    fn fmt<W: fmt::Write>(&self, f: &mut fmt::Formatter<W>) -> fmt::Result {
        if self.0.is_empty() {
            return f.write_str("-");
        }
        for byte in self.0 {
            f.write_str(DIGITS[(byte / 16) as usize])?;
            f.write_str(DIGITS[(byte % 16) as usize])?;
        }
        Ok(())
    }
}
