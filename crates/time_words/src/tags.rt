// A word as a time tag: 16 hexadecimal digits.
ghost use Rattle.std.specs.Prelude.{◌≡◌, ◌≤◌};
ghost use Rattle.time_words.specs.Tags.{hex_of, tag_in};

use words::numeral::digit;

// The value of a hexadecimal digit in either case, or 16 for a byte that is none.
//
// Ruled out: 10 for the byte before 'a'; a value for the byte after 'f'.
#[tactic(auto, unfolding(crate::specs::Tags::hex_of, words::specs::Numeral::digit_of, words::specs::Numeral::digit_in))]
fn hex_value(byte: u8) -> u64
    ensures { (result ≡ hex_of byte) × (result ≤ 16) }
{
    match byte {
        b'a'..=b'f' => (byte - b'a') as u64 + 10,
        _ => match digit(byte) {
            Some(value) => value as u64,
            None => 16,
        },
    }
}

// The tag of a word, which has exactly 16 digits.
//
// Ruled out: a tag for 15 digits; the digits from right to left.
pub fn tag_in(word: &[u8]) -> Option<u64>
    ensures { result ≡ tag_in word.now }
{
    if word.len() != 16 {
        return None;
    }
    let mut tag = 0;
    for byte in word {
        let value = hex_value(*byte);
        if value == 16 {
            return None;
        }
        tag = tag * 16 + value;
    }
    Some(tag)
}
