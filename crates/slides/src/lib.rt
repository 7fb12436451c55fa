// Ticket 13: the time tags of a frame, shifted where they stand. What that makes of a recording is in specs/ and proofs/; the step over a
// buffer is crates/slide_steps.
#![tactic(auto)]

ghost use Rattle.std.specs.Prelude.{◌≡◌, ◌+◌, ◌*◌, ◌^◌, ◌≤◌, ◌<◌, length};
ghost use Rattle.clock.specs.Shift.{shifted};
ghost use Rattle.node.specs.Records.{record_size};
ghost use Rattle.slides.specs.Slides.{time_tag_of, put_time, slide_one};
ghost use Rattle.slides.specs.CodeSlides.{slid_records, TimeFits, RecordsFit};

use node::record;
use node::record::Item;

// Shifts the time tags of the first `count` records of `table` in their frame, whose prefix stands at the front of `frame`.
//
// Ruled out: the time tag of a nested bundle left as it was; a byte changed that is of no time tag.
pub fn slide_records(frame: &mut [u8], by: u64, table: &[u8], count: usize)
    requires { (record_size * count ≤ length table.now) × RecordsFit (length frame.old) table.now count }
    ensures { frame.new ≡ slid_records by table.now 0 count frame.old }
{
    for i in 0..count {
        slide_one(frame, by, record::item_at(table, i));
    }
}

// Shifts the time tag of one record, if it has one: a bundle's stands after its "#bundle" and the padding of that, a t's at its start.
//
// Ruled out: the eight bytes of an h shifted; the carry between the halves of a tag lost.
fn slide_one(frame: &mut [u8], by: u64, item: Item)
    requires { TimeFits (length frame.old) item }
    ensures { frame.new ≡ slide_one by item frame.old }
{
    let start = item.start as usize;
    if item.kind == b'#' {
        put_time(frame, (start + 11) / 4 * 4, clock::shift(time_in(item), by));
        return;
    }
    if item.kind == b't' {
        put_time(frame, start, clock::shift(time_in(item), by));
    }
}

// The time tag of a record: seconds in the upper half, fractions in the lower.
fn time_in(item: Item) -> u64
    ensures { result ≡ time_tag_of item }
{
    u64::from(item.a) * 0x1_0000_0000 + u64::from(item.b)
}

// Writes a time tag over eight bytes.
fn put_time(frame: &mut [u8], at: usize, tag: u64)
    requires { at + 8 ≤ length frame.old }
    ensures { frame.new ≡ put_time at tag frame.old }
{
    wire::put_u64(&mut frame[at..], tag);
}
