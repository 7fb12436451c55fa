// An OSC string: its bytes up to the first NUL, the NUL, and padding to a multiple of 4 (decoder.rs, `read_osc_string`).
#![tactic(auto)]

ghost use Rattle.std.specs.Prelude.{◌≡◌, Ok, ◌+◌, ◌≤◌, ltb, length};
ghost use Rattle.wire.specs.Limits.{longest};
ghost use Rattle.text.specs.CodeFound.{TextFound};
ghost use Rattle.text.specs.CodePlain.{stops_at, special, count_to, Passed};
ghost use Rattle.text.specs.Text.{until_nul, reach, read_text, dirt_of_byte, non_zero, fault_in};

use refusal::{Fault, Field};

// What a text lacks.
#[derive(Clone, Copy, Debug, PartialEq, Eq)]
pub enum Lack {
    // There is no NUL.
    Nul,
    // There are fewer bytes than the padding takes, which begins at position `at`.
    Padding { at: usize },
    // The bytes are not UTF-8.
    Utf8,
}

// A text that was found: its `length`, and what it takes of the input, NUL and padding with it.
#[derive(Clone, Copy, Debug, PartialEq, Eq)]
pub struct FoundText {
    pub length: usize,
    pub used: usize,
}

// The fault that a packet has by a text at `pos` that is this field and lacks something: a missing NUL belongs to its text.
//
// Ruled out: 20 for a text without a NUL; padding that is short told as the text, or at the text's place.
pub fn fault_in(field: Field, pos: usize, lack: Lack) -> Fault
    ensures { result ≡ fault_in field pos lack }
{
    match lack {
        Lack::Nul => Fault::Short { field, at: pos },
        Lack::Padding { at } => Fault::Short {
            field: Field::Padding,
            at,
        },
        Lack::Utf8 => Fault::NotUtf8,
    }
}

// Whether a byte stops a scan: NUL does, and where `HIGH` also one above 0x7F, which is part of a longer character and so special.
fn is_stop<const HIGH: bool>(byte: u8) -> bool
    ensures { result ≡ stops_at HIGH byte }
{
    byte == 0 || HIGH && 0x7F < byte
}

// Whether one of the bytes stops a scan. With no early exit, the compiled test takes 16 of them at once.
fn any_stop<const HIGH: bool>(block: &[u8]) -> bool
    ensures { result ≡ ltb (count_to (stops_at HIGH) block.now) (length block.now) }
{
    let mut any = false;
    for byte in block {
        any |= is_stop::<HIGH>(*byte);
    }
    any
}

// How many bytes may be passed over, 16 at a time: none of them stops a scan. The place is counted by hand: by `split_first_chunk` texts of
// 256 bytes and more took a tenth longer.
fn skip<const HIGH: bool>(input: &[u8]) -> usize
    ensures { Passed (stops_at HIGH) result input.now }
{
    let mut at = 0;
    while 16 <= input.len() - at {
        if any_stop::<HIGH>(&input[at..at + 16]) {
            return at;
        }
        at += 16;
    }
    at
}

// Where the first byte stands that stops, from `start` on, one byte at a time; the end where there is none.
fn count_few<const HIGH: bool>(input: &[u8], start: usize) -> usize
    requires { Passed (stops_at HIGH) start input.now }
    ensures { (result ≤ length input.now) × (result ≡ count_to (stops_at HIGH) input.now) }
{
    for (i, byte) in input[start..].iter().enumerate() {
        if is_stop::<HIGH>(*byte) {
            return start + i;
        }
    }
    input.len()
}

// The same, with one test of the end for four bytes: most texts are short, and one byte at a time takes a fifth longer.
fn count_by_four<const HIGH: bool>(input: &[u8], start: usize) -> usize
    requires { Passed (stops_at HIGH) start input.now }
    ensures { (result ≤ length input.now) × (result ≡ count_to (stops_at HIGH) input.now) }
{
    let mut at = start;
    while let [first, second, third, fourth, ..] = &input[at..] {
        if is_stop::<HIGH>(*first) {
            return at;
        }
        if is_stop::<HIGH>(*second) {
            return at + 1;
        }
        if is_stop::<HIGH>(*third) {
            return at + 2;
        }
        if is_stop::<HIGH>(*fourth) {
            return at + 3;
        }
        at += 4;
    }
    count_few::<HIGH>(input, at)
}

// How many bytes stand before the first that stops; all of them where there is none. They are passed over 16, 4 and 1 at a time.
fn count_to<const HIGH: bool>(input: &[u8]) -> usize
    ensures { (result ≤ length input.now) × (result ≡ count_to (stops_at HIGH) input.now) }
{
    let front = skip::<HIGH>(input);
    count_by_four::<HIGH>(input, front)
}

// How many bytes stand before the first NUL; all of them where there is none.
fn until_nul(input: &[u8]) -> usize
    ensures { (result ≤ length input.now) × (result ≡ until_nul input.now) }
{
    count_to::<false>(input)
}

// One for a byte that is not zero, and none for one that is.
fn dirt_in(byte: u8) -> usize
    ensures { (result ≤ 1) × (result ≡ dirt_of_byte byte) }
{
    usize::from(byte != 0)
}

// How many bytes of padding are not zero. A text's padding is what it takes after its NUL. There are at most 3 of them: a loop over them
// would be compiled for many bytes and takes a fifth longer.
//
// Ruled out: the first such byte alone counted; the bytes that are zero counted.
pub fn dirty_in(padding: &[u8]) -> usize
    requires { length padding.now ≤ 3 }
    ensures { (result ≤ 3) × (result ≡ non_zero padding.now) }
{
    match padding {
        [] => 0,
        [first] => dirt_in(*first),
        [first, second] => dirt_in(*first) + dirt_in(*second),
        [first, second, third, ..] => dirt_in(*first) + dirt_in(*second) + dirt_in(*third),
    }
}

// How many bytes a text of `n` bytes at `pos` takes, NUL and padding with it: up to a multiple of 4 of the call's input.
fn taken_by(pos: usize, n: usize) -> usize
    requires { pos + n ≤ longest }
    ensures { result ≡ reach pos (n + 1) }
{
    (pos + n + 4) / 4 * 4 - pos
}

// Any text, of which `plain` bytes stand before the first special one and need no UTF-8 test.
fn read_other(input: &[u8], pos: usize, plain: usize) -> Result<FoundText, Lack>
    requires input_bound { pos + length input.now ≤ longest }
    requires plain_in_bounds { (plain ≤ length input.now) × (plain ≡ count_to special input.now) }
    ensures { result ≡ read_text input.now pos }
{
    let length = plain + until_nul(&input[plain..]);
    if length == input.len() {
        return Err(Lack::Nul);
    }
    let used = taken_by(pos, length);
    if input.len() < used {
        let at = pos + length + 1;
        return Err(Lack::Padding { at });
    }
    if utf8::is_utf8(&input[plain..length]) {
        return Ok(FoundText { length, used });
    }
    Err(Lack::Utf8)
}

// The text at the front of `input`, whose first byte stands at `pos` of the call's input: padding counts from there, and not
// from the front of `input`. Almost every text is plain and whole, and is found at once. What `read_other` gives is held in a local:
// compiled so, a text that is found at once is not first made in memory that the call would fill, and copied from there.
//
// Ruled out: `Lack::Utf8` for a text whose padding is missing too; padding looked at, so that a byte other than 0 is refused.
pub fn read_osc_string(input: &[u8], pos: usize) -> Result<FoundText, Lack>
    requires { pos + length input.now ≤ longest }
    ensures { result ≡ read_text input.now pos }
{
    let plain = count_to::<true>(input);
    let whole = taken_by(pos, plain);
    if input.len() < whole {
        let other = read_other(input, pos, plain);
        return other;
    }
    if input[plain] != 0 {
        let other = read_other(input, pos, plain);
        return other;
    }
    Ok(FoundText {
        length: plain,
        used: whole,
    })
}

// The text at the front of `input`, where it was found before: only its NUL is looked for, and no byte is judged again.
//
// Ruled out: the NUL counted as a byte of the text; padding that counts from the front of `input`.
pub fn find_osc_string(input: &[u8], pos: usize) -> FoundText
    requires input_bound { pos + length input.now ≤ longest }
    requires text_found { TextFound input.now pos }
    ensures { read_text input.now pos ≡ Ok result }
{
    let length = until_nul(input);
    let taken = taken_by(pos, length);
    FoundText {
        length,
        used: taken,
    }
}
