// The writers of a packet (encoder.rs, `encode_message`, `encode_bundle` and what they call): each fills the first bytes of the slice
// that it is lent, and answers how many these are.
#![tactic(auto)]

mod siblings; // siblings.rt: the nodes that stand side by side in a table

ghost use Rattle.std.specs.Prelude.{◌≡◌, [], ◌≤◌, length};
ghost use Rattle.wire.specs.Wrote.{Filled};
ghost use Rattle.node.specs.Tags.{message_kind};
ghost use Rattle.node.specs.Records.{kind_at};
ghost use Rattle.writers.specs.Osc.{write_bundle, write_tags, write_data};
ghost use Rattle.writers.specs.CodeWriters.{tag_text, bundle_head, Any, SoundIn, OutputRoom, WritesRow, Ready, WritesPacket};

use node::record::{END, Item, field_at, item_at, kind_at};
use node::tags::{ARRAY, Class, MESSAGE, Sort, sort_of};
use siblings::Siblings;
use strings::{encode_leaf_data, encode_pair_into, write_zeros};
use wire::{LONGEST, copy, put_u32};

// The bytes of a bundle before its elements: its mark and its time tag.
pub const BUNDLE_HEAD: usize = 16;

// The most bytes of a packet as an element, its size counted.
pub const LONGEST_ELEMENT: usize = LONGEST + 4;

// Writes the type tags of the records lo to hi - 1: an array's stand in brackets.
fn encode_arg_types(table: &[u8], lo: usize, hi: usize, out: &mut [u8]) -> usize
    requires { OutputRoom Any write_tags table.now lo hi (length out.old) }
    ensures { WritesRow write_tags table.now lo hi out.old out.new result }
{
    let mut written: usize = 0;
    for (at, end) in Siblings::new(table, lo, hi) {
        let kind = kind_at(table, at);
        out[written] = kind;
        written += 1;
        if kind == ARRAY {
            written += encode_arg_types(table, at + 1, end, &mut out[written..]);
            out[written] = b']';
            written += 1;
        }
    }
    written
}

// Writes the data of the records lo to hi - 1: an array's is that of what it contains.
fn encode_arg_data(table: &[u8], lo: usize, hi: usize, source: &[u8], out: &mut [u8]) -> usize
    requires { OutputRoom (SoundIn source.now) (write_data source.now) table.now lo hi (length out.old) }
    ensures { WritesRow (write_data source.now) table.now lo hi out.old out.new result }
{
    let mut written: usize = 0;
    for (at, end) in Siblings::new(table, lo, hi) {
        match sort_of(kind_at(table, at)) {
            Sort::Opens => {
                written += encode_arg_data(table, at + 1, end, source, &mut out[written..]);
            }
            Sort::Closes => {}
            Sort::Leaf(class) => {
                written += encode_leaf_data(class, item_at(table, at), source, &mut out[written..]);
            }
        }
    }
    written
}

// Writes the type tag text of the records lo to hi - 1: a comma, the tags and 1 to 4 NULs.
fn encode_type_tags(table: &[u8], lo: usize, hi: usize, out: &mut [u8]) -> usize
    requires { OutputRoom Any tag_text table.now lo hi (length out.old) }
    ensures { WritesRow tag_text table.now lo hi out.old out.new result }
{
    out[0] = b',';
    let end = 1 + encode_arg_types(table, lo, hi, &mut out[1..]);
    end + write_zeros(4 - end % 4, &mut out[end..])
}

// Writes the message at a record: its address, its type tags and the data of its arguments.
fn encode_message(table: &[u8], at: usize, source: &[u8], out: &mut [u8]) -> usize
    requires at_value { kind_at table.now at ≡ message_kind }
    requires ready { Ready source.now table.now at (length out.old) }
    ensures { WritesPacket source.now table.now at out.old out.new result }
{
    let end = field_at(table, at, END) as usize;
    let address = encode_leaf_data(Class::Text, item_at(table, at), source, out);
    let head = address + encode_type_tags(table, at + 1, end, &mut out[address..]);
    head + encode_arg_data(table, at + 1, end, source, &mut out[head..])
}

// Writes what every bundle begins with: its mark and its time tag.
fn encode_bundle_head(item: Item, out: &mut [u8]) -> usize
    requires { bundle_head ≤ length out.old }
    ensures { Filled (write_bundle item []) out.old out.new result }
{
    copy(b"#bundle\0", out);
    8 + encode_pair_into(item.a, item.b, &mut out[8..])
}

// Writes the bundle at a record: each packet that it contains stands after its size.
#[cycle(encode_bundle_encode_packet)]
fn encode_bundle(table: &[u8], at: usize, source: &[u8], out: &mut [u8]) -> usize
    requires fact { kind_at table.now at ≡ message_kind → ⊥ }
    requires ready { Ready source.now table.now at (length out.old) }
    ensures { WritesPacket source.now table.now at out.old out.new result }
{
    let end = field_at(table, at, END) as usize;
    let mut written = encode_bundle_head(item_at(table, at), out);
    for (next, _) in Siblings::new(table, at + 1, end) {
        let start = written + 4;
        let length = encode_packet(table, next, source, &mut out[start..]);
        put_u32(&mut out[written..], length as u32);
        written = start + length;
    }
    written
}

// Writes the packet at a record.
//
// Ruled out: an element's size that counts its own four bytes; a time tag whose fraction stands before its seconds.
#[cycle(encode_bundle_encode_packet)]
pub fn encode_packet(table: &[u8], at: usize, source: &[u8], out: &mut [u8]) -> usize
    requires { Ready source.now table.now at (length out.old) }
    ensures { WritesPacket source.now table.now at out.old out.new result }
{
    if kind_at(table, at) == MESSAGE {
        return encode_message(table, at, source, out);
    }
    encode_bundle(table, at, source, out)
}
