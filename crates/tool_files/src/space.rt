// The rooms for a table. Both are on the stack.
ghost use Rattle.std.specs.Prelude.{◌≡◌, ◌+◌, ◌*◌, ◌≤◌, length};
ghost use Rattle.node.specs.Records.{record_size, most_records};

use node::record::{MOST_RECORDS, RECORD_SIZE};

// The records of a small table: with this room and its other buffers a command ends within 1 MiB of stack.
const FEW_RECORDS: usize = 26_000;

// Whether a table of so many bytes is small.
pub fn is_small(size: u64) -> bool {
    size <= (RECORD_SIZE * FEW_RECORDS) as u64
}

// Room for the records of a small table, and a byte more, by which a larger one is seen.
pub fn small_table() -> [u8; RECORD_SIZE * FEW_RECORDS + 1]
    ensures { length result ≤ record_size * most_records }
{
    [0; RECORD_SIZE * FEW_RECORDS + 1]
}

// Room for the 65,535 records that a table may have, and a byte more, by which a file that is too large is seen.
//
// Ruled out: room for a record less; no byte more.
pub fn table() -> [u8; RECORD_SIZE * MOST_RECORDS + 1]
    ensures { record_size * most_records + 1 ≡ length result }
{
    [0; RECORD_SIZE * MOST_RECORDS + 1]
}
