// The data of one argument: judged, one function to each class that asks for it, and read, once it is known to be given. An argument whose
// bytes are not all there is one field that is short, from its first byte; its padding is another.
#![tactic(auto)]

ghost use Rattle.std.specs.Prelude.{◌≡◌, ◌+◌, ◌≤◌, length};
ghost use Rattle.wire.specs.Limits.{longest};
ghost use Rattle.node.specs.declared.tags.Class.TheVariants as class;
ghost use Rattle.argument.specs.Argument.{arg_item, read_arg};
ghost use Rattle.argument.specs.CodeClasses.{Checked};
ghost use Rattle.argument.specs.CodeRead.{ArgRead};

use node::record::Item;
use node::tags::Class;
use refusal::{Fault, Field};
use text::find_osc_string;
use wire::be_u32;

// The data of one argument of this tag and class at the front of `input`, whose first byte stands at `pos` of its frame: padding
// counts from there. An offset is `base` more than a position. Only for classes whose data is more than bytes as they are, and is judged
// here; apart from the others, so that the loop that passes over plain bytes is short.
//
// Ruled out: the offset of a blob's size, in place of its bytes, or of its bytes as its start; a surrogate as a 'c'.
pub fn read_checked(
    tag: u8,
    class: Class,
    input: &[u8],
    base: usize,
    pos: usize,
) -> Result<GivenArg, Fault>
    requires input_bound { base + pos + length input.now ≤ longest }
    requires checked { Checked class }
    ensures { result ≡ read_arg tag class base input.now pos }
{
    match class {
        Class::Text => read_text(tag, input, base, pos),
        Class::Blob => read_blob(tag, input, base, pos),
        Class::Scalar => read_char(tag, input, base, pos),
        _ => Err(Fault::UnknownTag),
    }
}

// A scalar number ('c').
fn read_char(tag: u8, input: &[u8], base: usize, pos: usize) -> Result<GivenArg, Fault>
    requires { base + pos + length input.now ≤ longest }
    ensures { result ≡ read_arg tag class.Scalar base input.now pos }
{
    if input.len() < 4 {
        return Err(Fault::Short {
            field: Field::Data,
            at: pos,
        });
    }
    let scalar = be_u32(input, 0);
    if node::tags::is_scalar(scalar) {
        return Ok(given(tag, (base + pos) as u32, scalar, 0, 4));
    }
    Err(Fault::NotScalar)
}

// A text ('s'): the range of its bytes.
fn read_text(tag: u8, input: &[u8], base: usize, pos: usize) -> Result<GivenArg, Fault>
    requires { base + pos + length input.now ≤ longest }
    ensures { result ≡ read_arg tag class.Text base input.now pos }
{
    match text::read_osc_string(input, pos) {
        Ok(text) => {
            let start = (base + pos) as u32;
            Ok(given(tag, start, start, text.length as u32, text.used))
        }
        Err(lack) => Err(text::fault_in(Field::Data, pos, lack)),
    }
}

// A size, where the data begins, and so many bytes ('b'): the range of the bytes. A size is below 2^32, so no sum of 64 bits wraps.
fn read_blob(tag: u8, input: &[u8], base: usize, pos: usize) -> Result<GivenArg, Fault>
    requires { base + pos + length input.now ≤ longest }
    ensures { result ≡ read_arg tag class.Blob base input.now pos }
{
    if input.len() < 4 {
        return Err(Fault::Short {
            field: Field::Data,
            at: pos,
        });
    }
    let size = be_u32(input, 0);
    let end = 4 + size as usize;
    if input.len() < end {
        return Err(Fault::Short {
            field: Field::Data,
            at: pos,
        });
    }
    let used = (pos + end + 3) / 4 * 4 - pos;
    if input.len() < used {
        return Err(Fault::Short {
            field: Field::Padding,
            at: pos + end,
        });
    }
    let bytes = base + pos + 4;
    Ok(given(tag, (bytes - 4) as u32, bytes as u32, size, used))
}

// An argument's own numbers, and how many bytes of data it takes.
#[derive(Clone, Copy, Debug, PartialEq, Eq)]
pub struct GivenArg {
    pub item: Item,
    pub used: usize,
}

// The same of an argument of any class that is known to be given: of its data nothing is tested or judged again.
//
// Ruled out: the high half of 8 bytes in both fields; an argument without data that takes bytes.
pub fn read_osc_arg(tag: u8, class: Class, input: &[u8], base: usize, pos: usize) -> GivenArg
    requires input_bound { base + pos + length input.now ≤ longest }
    requires arg_read { ArgRead (read_arg tag class base input.now pos) }
    ensures { read_arg tag class base input.now pos ≡ Ok result }
{
    let start = (base + pos) as u32;
    match class {
        Class::Four | Class::Scalar => given(tag, start, be_u32(input, 0), 0, 4),
        Class::Eight => given(tag, start, be_u32(input, 0), be_u32(input, 4), 8),
        Class::Text => {
            let text = find_osc_string(input, pos);
            given(tag, start, start, text.length as u32, text.used)
        }
        Class::Blob => {
            let size = be_u32(input, 0);
            let end = 4 + size as usize;
            given(tag, start, start + 4, size, (pos + end + 3) / 4 * 4 - pos)
        }
        _ => given(tag, start, 0, 0, 0),
    }
}

// An argument with these numbers.
fn given(tag: u8, start: u32, a: u32, b: u32, used: usize) -> GivenArg
    ensures { (result.item ≡ arg_item tag start a b) × (result.used ≡ used) }
{
    GivenArg {
        item: Item {
            kind: tag,
            a,
            b,
            start,
        },
        used,
    }
}
