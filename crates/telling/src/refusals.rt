// The line for a refusal.
ghost use Rattle.std.specs.Prelude.{◌≡◌, ◌≤◌, length};
ghost use Rattle.words.specs.Ascii.{ascii};
ghost use Rattle.telling.specs.Forms.{Says, filled_in};
ghost use Rattle.telling.specs.Refusals.{refused_form, numbered_line, refused_line, refused_words};
ghost use Rattle.telling.specs.CodePut.{words_room, FrontIs};

use crate::form::fill_in;
use refusal::{Refusal, number_of, offset_of};

// The forms of the refusals, each at its number, and an empty line at a number that no refusal has.
const REFUSALS: [&[u8]; 29] = [
    b"\n",
    b"refused %: decode input over 65,535 bytes, or encoded result (prefix included) over it, or frame length over 65,531\n",
    b"refused %: a packet of no bytes\n",
    b"\n",
    b"refused %: text is not UTF-8\n",
    b"refused %: first string is neither /-led nor exactly #bundle\n",
    b"refused %: ] with no array open\n",
    b"refused %: unknown type tag\n",
    b"refused %: c is not a scalar number\n",
    b"refused %: bundles and arrays nested deeper than the limit\n",
    b"refused %: the result has more records than the capacity\n",
    b"refused %: table not well formed, or a record asked for does not exist\n",
    b"refused %: output slice shorter than the result\n",
    b"refused %: depth limit over 64\n",
    b"refused %: pad of a position over 2^64 - 4\n",
    b"refused %: bytes left in the frame\n",
    b"refused %: frame length not a multiple of 4\n",
    b"refused %: the address at offset % is not all there\n",
    b"refused %: the type text at offset % is not all there\n",
    b"refused %: the argument data at offset % is not all there\n",
    b"refused %: the padding at offset % is not all there\n",
    b"refused %: the prefix or time tag at offset % is not all there\n",
    b"\n",
    b"\n",
    b"\n",
    b"refused %: index differs, record %\n",
    b"refused %: nanoseconds of 10^9 or more\n",
    b"refused %: later than the rule allows\n",
    b"refused %: before 1970\n",
];

// The form of the refusal of a number.
//
// Ruled out: the form of another number; a form for a number past the last.
fn form_of(number: u8) -> &'static [u8]
    ensures { result.now ≡ ascii (refused_form number) }
{
    let place = number as usize;
    if place < REFUSALS.len() {
        REFUSALS[place]
    } else {
        b""
    }
}

// Puts the line for the refusal of a number, and the number that is told beside it, at the front of `out`, and answers how long it is. What
// has no room is left out.
//
// Ruled out: the words of another number; the number beside it in its place.
pub fn tell_numbered(number: u8, beside: u64, out: &mut [u8]) -> usize
    ensures { Says (numbered_line number beside) out.new result }
{
    fill_in(form_of(number), &[number as u64, beside], b"", out)
}

// The same for a refusal: its number and its words, with the offset of a field that was short.
pub fn tell_refused(refusal: Refusal, out: &mut [u8]) -> usize
    ensures { Says (refused_line refusal) out.new result }
{
    tell_numbered(number_of(refusal), offset_of(refusal) as u64, out)
}

// Puts the words of a refusal, its line without the end, at the front of `out`, and answers how long they are.
pub fn put_words(refusal: Refusal, out: &mut [u8]) -> usize
    requires { words_room ≤ length out.old }
    ensures { FrontIs (refused_words refusal) out.new result }
{
    tell_refused(refusal, out).saturating_sub(1)
}

// Puts a line of this form, whose text is the words of a refusal.
//
// Ruled out: the words of another refusal; the line without them.
pub fn tell_stopped(form: &[u8], numbers: &[u64], refusal: Refusal, out: &mut [u8]) -> usize
    ensures { Says (filled_in (refused_words refusal) numbers.now form.now) out.new result }
{
    let mut words = io::buffer();
    let n = put_words(refusal, &mut words);
    fill_in(form, numbers, &words[..n], out)
}
