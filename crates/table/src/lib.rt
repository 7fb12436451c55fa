// The well-formed node table: what the encoder takes, as document 01 states it record by record.
#![tactic(auto)]

ghost use Rattle.std.specs.Prelude.{◌≡◌, ◌*◌, ◌≤◌, ◌<◌, ltb, length};
ghost use Rattle.wire.specs.Limits.{deepest};
ghost use Rattle.utf8.specs.Utf8.{Decides};
ghost use Rattle.node.specs.Forest.{Forest, is_level, depth};
ghost use Rattle.node.specs.Records.{record_size};
ghost use Rattle.table.specs.Formed.{text_ok, range_ok, allowed, Tiles, NodeOk, WellFormed};
ghost use Rattle.table.specs.Tree.{Spans, Row};

use node::record::{END, Item, MOST_RECORDS, capacity_of, field_at, item_at, kind_at, zeros_at};
use node::rules::{is_packet, own_rules};
use node::tags::{ARRAY, BUNDLE, MESSAGE};
use utf8::is_utf8;
use wire::{DEEPEST, lies_in, range};

// Whether a container of one kind may contain a node of another: a bundle packets, a message or an array arguments.
fn may_contain(container: u8, kind: u8) -> bool
    ensures { result ≡ allowed container kind }
{
    match container {
        BUNDLE => is_packet(kind),
        MESSAGE | ARRAY => !is_packet(kind),
        _ => false,
    }
}

// Whether a range lies in the source and is UTF-8 there.
//
// Ruled out: true for a range that ends past the source; true for bytes that are not UTF-8.
pub fn text_ok(source: &[u8], offset: u32, count: u32) -> bool
    ensures { result ≡ text_ok source.now offset count }
{
    lies_in(source, offset, count) && is_utf8(range(source, offset, count))
}

// Whether a node's range is right; a kind without a range passes.
fn range_ok(source: &[u8], item: Item) -> bool
    ensures { result ≡ range_ok source.now item }
{
    match item.kind {
        MESSAGE | b's' => text_ok(source, item.a, item.b),
        b'b' => lies_in(source, item.a, item.b),
        _ => true,
    }
}

// Whether nodes that the container may have stand end to end from record `lo` to record `hi`. No iterator, as the writers have one: that a
// record ends after itself is tested here.
fn tiles(table: &[u8], container: u8, lo: usize, hi: usize) -> bool
    requires { record_size * hi ≤ length table.now }
    ensures { Decides result (Tiles table.now container lo hi) }
{
    let mut at = lo;
    while at < hi {
        if !may_contain(container, kind_at(table, at)) {
            return false;
        }
        let next = field_at(table, at, END) as usize;
        if next <= at {
            return false;
        }
        at = next;
    }
    at == hi
}

// Whether a record of a table of `count` records is right.
fn node_ok(table: &[u8], count: usize, source: &[u8], index: usize) -> bool
    requires { (index < count) × (record_size * count ≤ length table.now) }
    ensures { Decides result (NodeOk table.now count source.now index) }
{
    let item = item_at(table, index);
    let end = field_at(table, index, END) as usize;
    zeros_at(table, index) == 0
        && own_rules(item)
        && range_ok(source, item)
        && end <= count
        && tiles(table, item.kind, index + 1, end)
}

// Whether a table of `count` records over a source is well formed. Each container's direct children are walked once, in the
// order of the records, up to the first fault: no recursion, and time that grows with the records and the texts.
//
// Ruled out: true for a child that ends after its container; false for an empty blob whose offset is the source's length.
pub fn is_well_formed(table: &[u8], count: usize, source: &[u8]) -> bool
    ensures { Decides result (WellFormed table.now count source.now) }
{
    0 < count
        && count <= MOST_RECORDS
        && count <= capacity_of(table)
        && is_packet(kind_at(table, 0))
        && field_at(table, 0, END) as usize == count
        && (0..count).all(|i| node_ok(table, count, source, i))
}

// Whether a record of a kind is one level of depth: a bundle or an array.
fn is_level(kind: u8) -> bool
    ensures { result ≡ is_level kind }
{
    matches!(kind, BUNDLE | ARRAY)
}

// Whether the bundles and arrays of a table of `count` records are nested deeper than a limit along any path; a message adds none.
// One walk over the records in order that keeps the ends of the open levels: no recursion. The table itself is level 0.
//
// Ruled out: true for bundles and arrays nested exactly as deep as the limit; false where only a later element is too deep.
pub fn deeper_than(table: &[u8], count: usize, limit: usize) -> bool
    requires { Row table.now 0 count × (limit ≤ deepest) }
    ensures { (F : Forest) → Spans table.now 0 count F → result ≡ ltb limit (depth F) }
{
    let mut ends = [count; DEEPEST + 1];
    let mut levels = 0;
    for at in 0..count {
        while ends[levels] <= at {
            levels -= 1;
        }
        if is_level(kind_at(table, at)) {
            if levels == limit {
                return true;
            }
            levels += 1;
            ends[levels] = field_at(table, at, END) as usize;
        }
    }
    false
}
