// The command look: one record of a table as words.
ghost use Rattle.std.specs.Prelude.{◌*◌, ◌≤◌, length};
ghost use Rattle.node.specs.Records.{record_size, most_records};

use crate::rooms;
use crate::rooms::Work;
use clock::Rule;
use commands::look_asked;
use std::fs::File;
use telling::{tell_record, tell_start};
use time_lines::tell_record_time;
use time_words::look_ruled;
use tool_files::named::Records;
use tool_files::typed::word;
use tool_files::{named, say};
use words::line::front;

// Says what a record of a table holds, where its data begins and, by a rule, its time.
fn look_in(rt: &HostRuntime, index: usize, ruled: Option<Rule>, table: &[u8]) {
    let mut line = io::buffer();
    let m = tell_record(table, index, &mut line);
    say::answer(rt, &line[..m]);
    let more = tell_start(table, index, &mut line);
    say::answer(rt, &line[..more]);
    if let Some(rule) = ruled {
        let timed = tell_record_time(rule, table, index, &mut line);
        say::answer(rt, &line[..timed]);
    }
}

// Looks at a record of an open table, whose first bytes were read, in a room for any.
pub fn go_on(
    rt: &HostRuntime,
    index: usize,
    ruled: Option<Rule>,
    file: File,
    first: &[u8],
    room: &mut [u8],
)
    requires { length first.now ≤ length room.old }
{
    if let Records::Whole(n) = named::read_rest(rt, file, 2, first, room) {
        look_in(rt, index, ruled, front(room, n));
    }
}

// Looks at a record of an open table in a room that may be too small for it.
pub fn begin(rt: &HostRuntime, index: usize, ruled: Option<Rule>, file: File, room: &mut [u8])
    requires { length room.old ≤ record_size * most_records }
{
    match named::read_table(rt, file, 2, room) {
        Records::Whole(n) => look_in(rt, index, ruled, front(room, n)),
        Records::More(file) => rooms::go_on(rt, Work::Look(index, ruled, file), room),
        Records::Failed => {}
    }
}

// Looks at the record that word 3 names, where the words are right. It writes no file, and no word names one that it could write.
fn look_ruled_by(rt: &HostRuntime, count: usize, ruled: Option<Rule>) {
    let mut number = io::buffer();
    let n = word(rt, 3, &mut number);
    match look_asked(count, &number[..n]) {
        Ok(index) => {
            if let Some(file) = named::open_table(rt, 2, 6) {
                rooms::run(rt, Work::Look(index, ruled, file));
            }
        }
        Err(blame) => say::blame(rt, blame),
    }
}

// Of its words there are `count`: --rule, its name and its word, are not counted where they are the last two.
pub fn run(rt: &HostRuntime, count: usize) {
    let mut name = io::buffer();
    let mut rule = io::buffer();
    let n = word(rt, 4, &mut name);
    let m = word(rt, 5, &mut rule);
    match look_ruled(count, &name[..n], &rule[..m]) {
        Ok(None) => look_ruled_by(rt, count, None),
        Ok(ruled) => look_ruled_by(rt, 4, ruled),
        Err(blame) => say::blame(rt, blame),
    }
}
