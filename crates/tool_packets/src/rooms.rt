// Room for the records of a table. All of it is on the stack, so a command begins in a small room and takes the large one only where that
// is too small. Each room is lent by a function that three commands call: the compiler would make one with a single caller a part of it, and
// then every command would need the stack of the large room. tests/osc_tool.sh sees that it does not.
ghost use Rattle.std.specs.Prelude.{◌*◌, ◌≤◌, length};
ghost use Rattle.node.specs.Records.{record_size, most_records};

use crate::{decode, encode, look};
use clock::Rule;
use commands::{Decoding, Writing};
use std::fs::File;
use tool_files::space;

// What the words of a command ask, and the open table that it reads. The `bool` says whether any file may be replaced.
#[derive(Drop)]
pub enum Work {
    Decode(Decoding, bool),
    Encode(Writing, bool, File),
    Look(usize, Option<Rule>, File),
}

// Runs a command in the small room: decode with the bytes that it read, the others with their table. Whether decode has room; the others go
// on by themselves.
pub fn begin(rt: &HostRuntime, work: Work, bytes: &[u8]) -> bool {
    let mut room = space::small_table();
    match work {
        Work::Decode(decoding, is_replacing) => {
            return decode::begin(rt, decoding, is_replacing, bytes, &mut room);
        }
        Work::Encode(writing, is_replacing, file) => encode::begin(
            rt,
            writing,
            is_replacing,
            file,
            &mut room,
        ),
        Work::Look(index, ruled, file) => look::begin(rt, index, ruled, file, &mut room),
    }
    true
}

// Runs a command in the large room: decode with the bytes that it read, the others with their table and those first bytes of it that were
// read before.
pub fn go_on(rt: &HostRuntime, work: Work, bytes: &[u8])
    requires { length bytes.now ≤ record_size * most_records }
{
    let mut room = space::table();
    match work {
        Work::Decode(decoding, is_replacing) => {
            decode::go_on(rt, decoding, is_replacing, bytes, &mut room);
        }
        Work::Encode(writing, is_replacing, file) => encode::go_on(
            rt,
            writing,
            is_replacing,
            file,
            bytes,
            &mut room,
        ),
        Work::Look(index, ruled, file) => look::go_on(rt, index, ruled, file, bytes, &mut room),
    }
}

// How long the table is that a command reads; 0 where the system does not tell, or it reads none.
fn size_of(work: &Work) -> u64 {
    match work {
        Work::Decode(_, _) => 0,
        Work::Encode(_, _, file) => files::length_of(file),
        Work::Look(_, _, file) => files::length_of(file),
    }
}

// Runs a command on its table, in the room that its length needs. A pipe has no length, so its table begins in the small one.
pub fn run(rt: &HostRuntime, work: Work) {
    if space::is_small(size_of(&work)) {
        begin(rt, work, b"");
    } else {
        go_on(rt, work, b"");
    }
}
