// Looking at a record of a table, at the text that its value names and at where its data begins.
ghost use Rattle.std.specs.Prelude.{◌≡◌};
ghost use Rattle.values.specs.Look.{look_at, started_at, part_or, text_named};

use crate::value;
use crate::value::OscType;
use node::{record, rules};
use refusal::Refusal;
use wire::{lies_in, range};

// Record `index` of a table as a value: by that record's own rules, without its end and its range.
//
// Ruled out: a value for a record whose three zero bytes are not 0; 11 for a text whose range lies outside the packet.
pub fn look(table: &[u8], index: usize) -> Result<OscType, Refusal>
    ensures { result ≡ look_at table.now index }
{
    if record::capacity_of(table) <= index {
        return Err(Refusal::BadTable);
    }
    if record::zeros_at(table, index) != 0 {
        return Err(Refusal::BadTable);
    }
    let item = record::item_at(table, index);
    if rules::own_rules(item) {
        return Ok(value::value_of(item));
    }
    Err(Refusal::BadTable)
}

// Where the data of record `index` begins: its fifth number. No rule tests it, so a table may have any.
//
// Ruled out: a start for a part of a record at the table's end; 11 for a record whose own rules do not hold.
pub fn start_of(table: &[u8], index: usize) -> Result<u32, Refusal>
    ensures { result ≡ started_at table.now index }
{
    if index < record::capacity_of(table) {
        return Ok(record::field_at(table, index, record::START));
    }
    Err(Refusal::BadTable)
}

// `count` bytes of the packet from `offset` on, where they lie in it; else the label.
fn named_part<'a>(packet: &'a [u8], label: &'a [u8], offset: u32, count: u32) -> &'a [u8]
    ensures { result.now ≡ part_or packet.now label.now offset count }
{
    if lies_in(packet, offset, count) {
        range(packet, offset, count)
    } else {
        label
    }
}

// The text, blob or address that a value names in its packet; else the caller's label. It never refuses.
//
// Ruled out: a text cut short at the packet's end, in place of the label; an empty part for a value that names none.
pub fn text_of<'a>(value: OscType, packet: &'a [u8], label: &'a [u8]) -> &'a [u8]
    ensures { result.now ≡ text_named value packet.now label.now }
{
    match value {
        OscType::Message { offset, length }
        | OscType::String { offset, length }
        | OscType::Blob { offset, length } => named_part(packet, label, offset, length),
        _ => label,
    }
}
