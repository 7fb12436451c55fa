// A word as a number: decimal digits and nothing else.
ghost use Rattle.std.specs.Prelude.{◌≡◌, ◌<◌, IfSome};
ghost use Rattle.words.specs.Numeral.{digit_in, appended_to, numeral_of};

use crate::line::word;

// The value of a decimal or an upper-case hexadecimal digit; none for another byte.
//
// Ruled out: 10 for the byte after '9'; a value for the byte after 'F'.
#[tactic(auto, unfolding(crate::specs::Numeral::digit_in, crate::specs::Numeral::digit_of))]
pub fn digit(byte: u8) -> Option<u8>
    ensures value { result ≡ digit_in byte }
    ensures less { IfSome result (λ x. x < 16) }
{
    match byte {
        b'0'..=b'9' => Some(byte - b'0'),
        b'A'..=b'F' => Some(byte - b'A' + 10),
        _ => None,
    }
}

// The number that a decimal digit more makes of `x`.
#[tactic(auto, unfolding(crate::specs::Numeral::digit_of))]
fn appended(x: u64, byte: u8) -> Option<u64>
    ensures { result ≡ appended_to x byte }
{
    if !byte.is_ascii_digit() {
        return None;
    }
    x.checked_mul(10)?.checked_add((byte - b'0') as u64)
}

// The number of a word of decimal digits.
//
// Ruled out: 0 for a word of no bytes; a number for a word that only begins with digits.
pub fn decimal(word: &[u8]) -> Option<u64>
    ensures { result ≡ numeral_of word.now }
{
    if word.is_empty() {
        return None;
    }
    let mut x = 0;
    for byte in word {
        x = appended(x, *byte)?;
    }
    Some(x)
}

// The number of word `n`; the greatest where it is none.
pub fn number(s: &[u8], n: usize) -> u64 {
    decimal(word(s, n)).unwrap_or(u64::MAX)
}
