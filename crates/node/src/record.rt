// One record of the node table: kind (1 byte), three zero bytes, end (4), a (4), b (4), start (4), big-endian.
ghost use Rattle.std.specs.Prelude.{◌≡◌, [], ◌∷◌, ◌+◌, ◌≤◌, ◌<◌, length};
ghost use Rattle.wire.specs.Wrote.{Wrote};
ghost use Rattle.node.specs.Records.{record_size, record_of, kind_at, zeros_at, field_at, item_at, capacity};

use wire::{be_u32, put_u32};

// The bytes of a record.
pub const RECORD_SIZE: usize = 20;

// The most records of a table that is encoded.
pub const MOST_RECORDS: usize = 65_535;

// Where the numbers of a record stand in it.
pub const END: usize = 4;

pub const A: usize = 8;

pub const B: usize = 12;

pub const START: usize = 16;

// A node's own numbers: all that its record says but its end, which what it contains decides.
#[derive(Clone, Copy, Debug, PartialEq, Eq)]
pub struct Item {
    pub kind: u8,
    pub a: u32,
    pub b: u32,
    // The offset, from the call's first byte, where the item's data begins.
    pub start: u32,
}

// How many records a slice has room for.
pub fn capacity_of(table: &[u8]) -> usize
    ensures { result ≡ capacity table.now }
{
    table.len() / RECORD_SIZE
}

// Writes a kind and the three zero bytes: the bytes of one number.
fn put_kind(table: &mut [u8], kind: u8)
    requires { 4 ≤ length table.old }
    ensures { Wrote (kind ∷ 0 ∷ 0 ∷ 0 ∷ []) table.old table.new }
{
    put_u32(table, kind as u32 * 0x100_0000);
}

// Writes a record over the first bytes of `table`.
pub fn put_record(table: &mut [u8], item: Item, end: u32)
    requires { record_size ≤ length table.old }
    ensures { Wrote (record_of item end) table.old table.new }
{
    put_kind(table, item.kind);
    put_u32(&mut table[END..], end);
    put_u32(&mut table[A..], item.a);
    put_u32(&mut table[B..], item.b);
    put_u32(&mut table[START..], item.start);
}

// The kind of record `index`.
//
// One field is read where only that is wanted: its bytes are then loaded together, where it is used.
pub fn kind_at(table: &[u8], index: usize) -> u8
    requires { index < capacity table.now }
    ensures { result ≡ kind_at table.now index }
{
    table[RECORD_SIZE * index]
}

// The number of the three bytes after the kind.
pub fn zeros_at(table: &[u8], index: usize) -> u32
    requires { index < capacity table.now }
    ensures { result ≡ zeros_at table.now index }
{
    be_u32(table, RECORD_SIZE * index) % 0x100_0000
}

// The number that stands at place `k` of record `index`: END, A, B or START.
pub fn field_at(table: &[u8], index: usize, k: usize) -> u32
    requires { (index < capacity table.now) × (k + 4 ≤ record_size) }
    ensures { result ≡ field_at table.now index k }
{
    be_u32(table, RECORD_SIZE * index + k)
}

// What record `index` says of its node.
pub fn item_at(table: &[u8], index: usize) -> Item
    requires { index < capacity table.now }
    ensures { result ≡ item_at table.now index }
{
    Item {
        kind: kind_at(table, index),
        a: field_at(table, index, A),
        b: field_at(table, index, B),
        start: field_at(table, index, START),
    }
}
