// Shifting the time tags of a table (document 02, Ticket 13): those of its bundles and of its time tag arguments.
#![tactic(auto)]

mod laws; // laws.rt: what Ticket 13 demands of the call by itself

ghost use Rattle.std.specs.Prelude.{◌≡◌, ◌*◌, ◌≤◌, true, length, take};
ghost use Rattle.wire.specs.Wrote.{Wrote};
ghost use Rattle.node.specs.Records.{record_size};
ghost use Rattle.values.specs.Look.{look_at};
ghost use Rattle.shifts.specs.Shifts.{is_timed, shifted_record, own_tag, shifted_table, time_tags, is_value, lookable, Shifts};

use node::record::{A, RECORD_SIZE};
use node::tags::BUNDLE;
use refusal::Refusal;
use values::look::look;

// Whether the two numbers of a record of this kind are a time tag.
fn is_timed(kind: u8) -> bool
    ensures { result ≡ is_timed kind }
{
    matches!(kind, BUNDLE | b't')
}

// Whether a record exists and obeys its own rules.
fn is_value(table: &[u8], index: usize) -> bool
    ensures { result ≡ is_value (look_at table.now index) }
{
    look(table, index).is_ok()
}

// Whether the first `count` records exist and obey their own rules.
fn is_lookable(table: &[u8], count: usize) -> bool
    ensures { result ≡ lookable table.now count }
{
    (0..count).all(|i| is_value(table, i))
}

// Shifts the tag of the first record, where it has one, and says how many tags that are. Its two numbers are one of 64 bits.
fn shift_record(table: &mut [u8], by: u64) -> usize
    requires { record_size ≤ length table.old }
    ensures { (result ≡ length (own_tag (take record_size table.old)))
        × Wrote (shifted_record by (take record_size table.old)) table.old table.new }
{
    if !is_timed(table[0]) {
        return 0;
    }
    let tag = clock::shift(wire::be_u64(table, A), by);
    wire::put_u64(&mut table[A..], tag);
    1
}

// Shifts the tags of the first `count` records, and says how many there are.
fn shift_records(table: &mut [u8], count: usize, by: u64) -> usize
    requires { record_size * count ≤ length table.old }
    ensures { (result ≡ length (time_tags count table.old))
        × (table.new ≡ shifted_table by count table.old) }
{
    let mut moved: usize = 0;
    for index in 0..count {
        moved += shift_record(&mut table[RECORD_SIZE * index..], by);
    }
    moved
}

// Shifts the time tags of the first `count` records of a table by an amount, modulo 2^64: the tag of each bundle and each time argument.
// Answers how many tags were moved. No other byte changes. 11, and nothing changes, where one of these records does not exist or breaks
// its own rules; records after them are not looked at.
//
// Ruled out: the two numbers of an 'h' shifted; a nested bundle's tag left as it was; a carry lost between the halves; a table that is
// shifted up to the record for which it is refused.
pub fn shift_table(table: &mut [u8], count: usize, by: u64) -> Result<usize, Refusal>
    ensures { Shifts table.old count by result table.new }
{
    if !is_lookable(table, count) {
        return Err(Refusal::BadTable);
    }
    Ok(shift_records(table, count, by))
}
