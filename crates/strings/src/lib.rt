// The writers of texts, blobs, numbers and one argument's data (encoder.rs, `encode_arg_data` and what it calls): each fills the first
// bytes of the slice that it is lent, and answers how many these are.
#![tactic(auto)]

ghost use Rattle.std.specs.Prelude.{◌≡◌, true, ◌++◌, ◌+◌, ◌^◌, ◌≤◌, ◌<◌, length, replicate};
ghost use Rattle.wire.specs.Wrote.{Filled};
ghost use Rattle.strings.specs.Atomic.{int32, osc_string, osc_blob, write_argument};
ghost use Rattle.strings.specs.CodeStrings.{string_length, blob_length, has_range};

use node::record::Item;
use node::tags::Class;
use wire::{copy, put_u32, range};

// Writes n zero bytes, at most 4. `fill` is compiled to a call: with it, encoding takes 5 to 10 % longer.
pub fn write_zeros(n: usize, out: &mut [u8]) -> usize
    requires { (n ≤ 4) × (n ≤ length out.old) }
    ensures { Filled (replicate n 0) out.old out.new result }
{
    if n == 0 {
        return 0;
    }
    out[0] = 0;
    if n == 1 {
        return 1;
    }
    out[1] = 0;
    if n == 2 {
        return 2;
    }
    out[2] = 0;
    if n == 3 {
        return 3;
    }
    out[3] = 0;
    4
}

// Writes a text and its 1 to 4 NULs: the last 4 bytes are NULs at first, and the text is written over some of them.
//
// Ruled out: a text of a multiple of 4 bytes with no NUL; a fourth NUL that is another byte.
pub fn encode_string_into(text: &[u8], out: &mut [u8]) -> usize
    requires { string_length (length text.now) ≤ length out.old }
    ensures { Filled (osc_string text.now) out.old out.new result }
{
    let n = text.len();
    let last = n - n % 4;
    put_u32(&mut out[last..], 0);
    copy(text, out);
    last + 4
}

// Writes a blob: its size, its bytes and 0 to 3 zeros.
fn encode_blob_into(content: &[u8], out: &mut [u8]) -> usize
    requires content_len_bound { length content.now < 2 ^ 32 }
    requires content_in_bounds { blob_length (length content.now) ≤ length out.old }
    ensures { Filled (osc_blob content.now) out.old out.new result }
{
    let n = content.len();
    put_u32(out, n as u32);
    copy(content, &mut out[4..]);
    let end = 4 + n;
    end + write_zeros((4 - n % 4) % 4, &mut out[end..])
}

// Writes a number.
fn encode_number_into(x: u32, out: &mut [u8]) -> usize
    requires { 4 ≤ length out.old }
    ensures { Filled (int32 x) out.old out.new result }
{
    put_u32(out, x);
    4
}

// Writes two numbers, as a time tag has them.
pub fn encode_pair_into(high: u32, low: u32, out: &mut [u8]) -> usize
    requires { 8 ≤ length out.old }
    ensures { Filled (int32 high ++ int32 low) out.old out.new result }
{
    put_u32(out, high);
    put_u32(&mut out[4..], low);
    8
}

// Writes the data of one argument that is no array. An address is written by it too: called from two places, it stays a function of
// its own, and a level of nested arrays takes no more of the stack than its own frame.
//
// Ruled out: four zeros after a blob of a multiple of 4 bytes; the data of a range that the record does not name.
pub fn encode_leaf_data(class: Class, item: Item, source: &[u8], out: &mut [u8]) -> usize
    requires b_in_bounds { has_range class ≡ true → item.a + item.b ≤ length source.now }
    requires item_in_bounds { length (write_argument class source.now item) ≤ length out.old }
    ensures { Filled (write_argument class source.now item) out.old out.new result }
{
    match class {
        Class::Four | Class::Scalar => encode_number_into(item.a, out),
        Class::Eight => encode_pair_into(item.a, item.b, out),
        Class::Text => encode_string_into(range(source, item.a, item.b), out),
        Class::Blob => encode_blob_into(range(source, item.a, item.b), out),
        Class::Bare | Class::Unknown => 0,
    }
}
