// What a run says: texts and numbers, put into a line before it is written. No contract can speak of what is written; these speak of the
// line, and `say` and `say_counts` write it as it stands.
ghost use Rattle.std.specs.Prelude.{◌≤◌, length};
ghost use Rattle.runs.specs.Said.{Adds, AddsCount, SaysCounts};

use words::line::front;

// Puts a text after the first `at` bytes of a line, and says where it ends. What has no room is left out.
//
// Ruled out: a text over what stands there; one without its first byte.
pub fn put_text(line: &mut [u8], at: usize, text: &[u8]) -> usize
    requires { at ≤ length line.old }
    ensures { Adds text.now at line.old result line.new }
{
    let end = at + text.len().min(line.len() - at);
    line[at..end].copy_from_slice(&text[..end - at]);
    end
}

// Puts a text and a number.
//
// Ruled out: 0 for every number; the number before the text.
pub fn put_count(line: &mut [u8], at: usize, text: &[u8], x: u64) -> usize
    requires { at ≤ length line.old }
    ensures { AddsCount text.now x at line.old result line.new }
{
    let mut digits = [0u8; 20];
    let n = io::decimal(x, &mut digits);
    let from = put_text(line, at, text);
    put_text(line, from, &digits[..n])
}

// Puts three texts, with a number after the first and one after the second.
//
// Ruled out: the first number in both places; a line that ends with the second number.
pub fn put_counts(
    line: &mut [u8],
    first: &[u8],
    x: u64,
    second: &[u8],
    y: u64,
    third: &[u8],
) -> usize
    ensures { SaysCounts first.now x second.now y third.now
        line.old result line.new }
{
    let one = put_count(line, 0, first, x);
    let two = put_count(line, one, second, y);
    put_text(line, two, third)
}

// Says a text and a number.
pub fn say(text: &[u8], x: u64) {
    let mut line = [0u8; 256];
    let n = put_count(&mut line, 0, text, x);
    io::write_all(1, front(&line, n));
}

// Says three texts, with a number after the first and one after the second.
pub fn say_counts(first: &[u8], x: u64, second: &[u8], y: u64, third: &[u8]) {
    let mut line = [0u8; 256];
    let n = put_counts(&mut line, first, x, second, y, third);
    io::write_all(1, front(&line, n));
}
