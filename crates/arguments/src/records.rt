// The second reading: the records of arguments, written in one pass. Linear, with no stack for arrays: while an array is open, its
// record holds in place of its end the link to the open array around it.
ghost use Rattle.std.specs.Prelude.{◌≡◌, ◌++◌, ◌+◌, ◌*◌, ◌≤◌, ◌<◌, length, take};
ghost use Rattle.wire.specs.Limits.{longest};
ghost use Rattle.wire.specs.Number.{bytes};
ghost use Rattle.wire.specs.Wrote.{Wrote};
ghost use Rattle.node.specs.Records.{record_size, most_records, record_of, records_of, end_at};
ghost use Rattle.arguments.specs.Arguments.{read_args};
ghost use Rattle.arguments.specs.CodeReadings.{kept_of, ArgsRoom};
ghost use Rattle.scan.specs.CodeScans.{back, AllClosed};

use argument::read_osc_arg;
use node::record::{END, Item, RECORD_SIZE, field_at, put_record};
use node::tags::{ARRAY, Sort, sort_of};
use wire::put_u32;

// Writes record `n`; the records before it stay.
fn put_at(table: &mut [u8], n: usize, item: Item, end: u32)
    requires { (n < most_records) × (record_size * n + record_size ≤ length table.old) }
    ensures { Wrote (take (record_size * n) table.old ++ record_of item end) table.old table.new }
{
    put_record(&mut table[RECORD_SIZE * n..], item, end);
}

// Writes the end of record `n`, and answers what stood in its place.
fn swap_end(table: &mut [u8], n: usize, end: u32) -> u32
    requires { (n < most_records) × (record_size * n + record_size ≤ length table.old) }
    ensures value { result ≡ end_at table.old n }
    ensures wrote { Wrote (take (record_size * n + 4) table.old ++ bytes 4 end) table.old table.new }
{
    let was = field_at(table, n, END);
    put_u32(&mut table[RECORD_SIZE * n + END..], end);
    was
}

// Writes the records of arguments whose arrays are all closed. `top` is the link to the innermost open array: one more than its
// place among the records written, or 0 for none.
//
// Ruled out: the end of an argument at its own index; an open array that holds no link.
pub fn fill_whole(
    tags: &[u8],
    input: &[u8],
    base: usize,
    pos: usize,
    table: &mut [u8],
    index: usize,
)
    requires input_bound { base + pos + length input.now ≤ longest }
    requires args_room { ArgsRoom (read_args base tags.now input.now pos) index table.old }
    requires all_closed { AllClosed (back tags.now) }
    ensures { Wrote (records_of index (kept_of (read_args base tags.now input.now pos)))
        table.old table.new }
{
    let mut left = tags;
    let mut rest = input;
    let mut at = pos;
    let mut n: usize = 0;
    let mut top: usize = 0;
    while 0 < left.len() {
        let tag = left[0];
        left = &left[1..];
        match sort_of(tag) {
            Sort::Opens => {
                let array = Item {
                    kind: ARRAY,
                    a: 0,
                    b: 0,
                    start: (base + at) as u32,
                };
                put_at(table, n, array, top as u32);
                n += 1;
                top = n;
            }
            Sort::Closes => {
                top = swap_end(table, top - 1, (index + n) as u32) as usize;
            }
            Sort::Leaf(class) => {
                let given = read_osc_arg(tag, class, rest, base, at);
                let used = given.used;
                put_at(table, n, given.item, (index + n + 1) as u32);
                n += 1;
                rest = &rest[used..];
                at += used;
            }
        }
    }
}
