// The second reading of a packet: its records are written to the front of a table that has room for them.
#![tactic(auto)]

ghost use Rattle.std.specs.Prelude.{◌≡◌, Some, ◌+◌, ◌≤◌, length};
ghost use Rattle.wire.specs.Limits.{longest};
ghost use Rattle.arguments.specs.Arguments.{read_args};
ghost use Rattle.packet.specs.Packet.{message_with, read_message, read_packet, read_bundle, read_element};
ghost use Rattle.node.specs.Records.{stored, TableRoom};
ghost use Rattle.fill.specs.CodeFill.{tree_of, Fills, PacketAccepted, Known, WritesAccepted};

use node::record;
use node::record::Item;
use packet::PacketStart;
use wire::be_u32;

// What the second reading of a packet gives: so many records; `next` is the position after its last byte.
#[derive(Clone, Copy, Debug, PartialEq, Eq)]
pub struct Element {
    pub count: usize,
    pub next: usize,
}

// A packet at `pos` of its frame, which stands at `base` of the call's input. Its first record has index `index`.
//
// Ruled out: a bundle's end that is not the index after all that it contains; bytes left in an element read as the next one.
#[cycle(decode_bundle_decode_packet_read_bundle_element)]
pub fn decode_packet(
    input: &[u8],
    base: usize,
    pos: usize,
    table: &mut [u8],
    index: usize,
) -> Option<Element>
    requires input_bound { base + pos + length input.now ≤ longest }
    requires table_room { TableRoom (tree_of (read_packet base input.now pos)) index table.old }
    ensures { Fills (read_packet base input.now pos) pos index table.old result table.new }
{
    match packet::read_start(input, pos).ok()? {
        PacketStart::Message { length, used } => {
            let item = heads::message_item(base + pos, length);
            decode_message(&input[used..], base, pos + used, item, table, index)
        }
        PacketStart::Bundle { used } => {
            decode_bundle(&input[used..], base, pos + used, base + pos, table, index)
        }
    }
}

// What follows the address of the message with these own numbers. Its arguments are measured before the first
// record is written: in a bundle the message may be refused.
fn decode_message(
    input: &[u8],
    base: usize,
    pos: usize,
    item: Item,
    table: &mut [u8],
    index: usize,
) -> Option<Element>
    requires input_bound { base + pos + length input.now ≤ longest }
    requires table_room { TableRoom (tree_of (read_message base item input.now pos)) index table.old }
    ensures { Fills (read_message base item input.now pos) pos index table.old result table.new }
{
    let types = text::read_osc_string(input, pos).ok()?;
    let used = types.used;
    let tags = heads::tags_in(&input[0..types.length]);
    let rest = &input[used..];
    let args = arguments::count_osc_args(tags, rest, pos + used).ok()?;
    let count = 1 + args.count;
    put_message(tags, rest, base, pos + used, item, table, index, count);
    Some(Element {
        count,
        next: pos + used + args.used,
    })
}

// What follows the "#bundle" at offset `start`. The bundle's own record is written last, when its end is known.
#[cycle(decode_bundle_decode_packet_read_bundle_element)]
fn decode_bundle(
    input: &[u8],
    base: usize,
    pos: usize,
    start: usize,
    table: &mut [u8],
    index: usize,
) -> Option<Element>
    requires input_bound { base + pos + length input.now ≤ longest }
    requires table_room { TableRoom (tree_of (read_bundle base start input.now pos)) index table.old }
    requires start_le_longest { start ≤ longest }
    ensures { Fills (read_bundle base start input.now pos) pos index table.old result table.new }
{
    if input.len() < 8 {
        return None;
    }
    let mut rest = &input[8..];
    let mut at = pos + 8;
    let mut count = 1;
    while let Some(element) = read_bundle_element(
        rest,
        base,
        at,
        &mut table[record::RECORD_SIZE * count..],
        index + count,
    ) {
        let next = element.next;
        count += element.count;
        rest = &rest[next - at..];
        at = next;
    }
    let end = index + count;
    record::put_record(table, heads::bundle_item(start, input), end as u32);
    Some(Element { count, next: at })
}

// An element: a size and that many bytes, which hold a packet. Bytes left inside it are dropped.
#[cycle(decode_bundle_decode_packet_read_bundle_element)]
fn read_bundle_element(
    input: &[u8],
    base: usize,
    pos: usize,
    table: &mut [u8],
    index: usize,
) -> Option<Element>
    requires input_bound { base + pos + length input.now ≤ longest }
    requires table_room { TableRoom (tree_of (read_element base input.now pos)) index table.old }
    ensures { Fills (read_element base input.now pos) (pos + 4) index table.old result table.new }
{
    let size = heads::read_size(input)?;
    let held = decode_packet(&input[4..4 + size], base, pos + 4, table, index)?;
    Some(Element {
        count: held.count,
        next: pos + 4 + size,
    })
}

// A packet that was accepted, of `count` records: nothing is judged again but what a bundle inside it contains, whose end is not known.
//
// Ruled out: a message's end one late; padding of a bundle counted from its word.
pub fn write_packet(
    input: &[u8],
    base: usize,
    pos: usize,
    table: &mut [u8],
    index: usize,
    count: usize,
)
    requires input_bound { base + pos + length input.now ≤ longest }
    requires table_room { TableRoom (tree_of (read_packet base input.now pos)) index table.old }
    requires known { Known (read_packet base input.now pos) count }
    ensures { table.new ≡ stored index (tree_of (read_packet base input.now pos)) table.old }
{
    match packet::find_start(input, pos) {
        PacketStart::Message { length, used } => {
            let item = heads::message_item(base + pos, length);
            write_message(&input[used..], base, pos + used, item, table, index, count);
        }
        PacketStart::Bundle { used } => {
            let word = base + pos;
            write_bundle(&input[used..], base, pos + used, word, table, index, count);
        }
    }
}

// What follows the address of a message that was accepted.
fn write_message(
    input: &[u8],
    base: usize,
    pos: usize,
    item: Item,
    table: &mut [u8],
    index: usize,
    count: usize,
)
    requires input_bound { base + pos + length input.now ≤ longest }
    requires table_room { TableRoom (tree_of (read_message base item input.now pos)) index table.old }
    requires known { Known (read_message base item input.now pos) count }
    ensures { table.new ≡ stored index (tree_of (read_message base item input.now pos)) table.old }
{
    let types = text::find_osc_string(input, pos);
    let length = types.length;
    let used = types.used;
    let tags = heads::tags_in(&input[0..length]);
    let rest = &input[used..];
    put_message(tags, rest, base, pos + used, item, table, index, count);
}

// What follows the "#bundle" at offset `start` of a bundle that was accepted, of `count` records. While there are fewer, the next element
// is accepted: one that is refused would be the bundle's end.
fn write_bundle(
    input: &[u8],
    base: usize,
    pos: usize,
    start: usize,
    table: &mut [u8],
    index: usize,
    count: usize,
)
    requires input_bound { base + pos + length input.now ≤ longest }
    requires table_room { TableRoom (tree_of (read_bundle base start input.now pos)) index table.old }
    requires known { Known (read_bundle base start input.now pos) count }
    requires start_le_longest { start ≤ longest }
    ensures { table.new ≡ stored index (tree_of (read_bundle base start input.now pos)) table.old }
{
    let mut rest = &input[8..];
    let mut at = pos + 8;
    let mut written = 1;
    while written < count {
        let later = &mut table[record::RECORD_SIZE * written..];
        let element = write_element(rest, base, at, later, index + written);
        let next = element.next;
        written += element.count;
        rest = &rest[next - at..];
        at = next;
    }
    record::put_record(
        table,
        heads::bundle_item(start, input),
        (index + count) as u32,
    );
}

// An element that is known to be accepted: its size is not compared with what is left.
fn write_element(input: &[u8], base: usize, pos: usize, table: &mut [u8], index: usize) -> Element
    requires input_bound { base + pos + length input.now ≤ longest }
    requires table_room { TableRoom (tree_of (read_element base input.now pos)) index table.old }
    requires packet_accepted { PacketAccepted (read_element base input.now pos) }
    ensures { Fills (read_element base input.now pos) (pos + 4) index table.old
        (Some result) table.new }
{
    let size = be_u32(input, 0) as usize;
    let count = write_held(&input[4..4 + size], base, pos + 4, table, index);
    let next = pos + 4 + size;
    Element { count, next }
}

// The packet that such an element holds; answers how many records it has.
fn write_held(input: &[u8], base: usize, pos: usize, table: &mut [u8], index: usize) -> usize
    requires input_bound { base + pos + length input.now ≤ longest }
    requires table_room { TableRoom (tree_of (read_packet base input.now pos)) index table.old }
    requires packet_accepted { PacketAccepted (read_packet base input.now pos) }
    ensures { WritesAccepted (read_packet base input.now pos) index table.old result table.new }
{
    match packet::find_start(input, pos) {
        PacketStart::Message { length, used } => {
            let item = heads::message_item(base + pos, length);
            write_held_message(&input[used..], base, pos + used, item, table, index)
        }
        PacketStart::Bundle { used } => {
            match decode_bundle(&input[used..], base, pos + used, base + pos, table, index) {
                Some(bundle) => bundle.count,
                None => 0,
            }
        }
    }
}

// What follows the address of a message that such an element holds: its tags tell how many records it has.
fn write_held_message(
    input: &[u8],
    base: usize,
    pos: usize,
    item: Item,
    table: &mut [u8],
    index: usize,
) -> usize
    requires input_bound { base + pos + length input.now ≤ longest }
    requires table_room { TableRoom (tree_of (read_message base item input.now pos)) index table.old }
    requires packet_accepted { PacketAccepted (read_message base item input.now pos) }
    ensures { WritesAccepted (read_message base item input.now pos) index table.old result table.new }
{
    let types = text::find_osc_string(input, pos);
    let length = types.length;
    let used = types.used;
    let tags = heads::tags_in(&input[0..length]);
    let rest = &input[used..];
    let count = 1 + arguments::count_accepted(tags);
    put_message(tags, rest, base, pos + used, item, table, index, count);
    count
}

// The records of a message that is accepted, `count` in all: its own, and after it those of its arguments.
fn put_message(
    tags: &[u8],
    input: &[u8],
    base: usize,
    pos: usize,
    item: Item,
    table: &mut [u8],
    index: usize,
    count: usize,
)
    requires input_bound { base + pos + length input.now ≤ longest }
    requires table_room { TableRoom (tree_of (message_with item (read_args base tags.now input.now pos))) index table.old }
    requires known { Known (message_with item (read_args base tags.now input.now pos)) count }
    ensures { table.new
        ≡ stored index (tree_of (message_with item (read_args base tags.now input.now pos))) table.old }
{
    record::put_record(table, item, (index + count) as u32);
    let later = &mut table[record::RECORD_SIZE..];
    arguments::read_osc_args(tags, input, base, pos, later, index + 1);
}
