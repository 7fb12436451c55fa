// A recording read buffer by buffer, and the index of each buffer written, or compared with one that is given. What a buffer adds, what of
// it is kept and when the walk ends is decided in `walks`, and whether records differ in `outcomes`: here files are read and written, and
// it is said how much is read.
#![tactic(auto)]

ghost use Rattle.std.specs.Prelude.{◌≡◌, ◌*◌, ◌≤◌, length};
ghost use Rattle.wire.specs.Limits.{longest};
ghost use Rattle.cues.specs.Cues.{entry_size, most_entries, longest_recording};
ghost use Rattle.walks.specs.Walks.{LowPosition, LowLast};
ghost use Rattle.tool_walks.specs.Runs.{begun};
ghost use Rattle.tool_recordings.specs.CodeCame.{LowCame, LowJudged, StaysOrFails, Room};
ghost use Rattle.tool_recordings.specs.Loops.{ComparedOn, HandedOn, TurnsTo, LoopsAt, LoopsFrom, JudgedAt, Judges};

use cues::{ENTRY_SIZE, MOST_ENTRIES};
use outcomes::check_part;
use results::{End, IndexDiffers};
use std::fs::File;
use tool_files::say;
use troubles::Trouble;
use walks::{Position, Walked, walk_step};
use words::line::front;

// How often it is said how much is read: 16 MiB.
const OFTEN: u64 = 0x100_0000;

// What becomes of the index: it is written to an open file, or compared with one.
#[derive(Clone, Copy)]
pub enum Aim<'a> {
    Write(&'a File),
    Compare(&'a File),
}

// How a walk over a recording stands.
#[derive(Clone, Copy)]
pub enum Came {
    // It goes on.
    On(Position),
    // There are no more records, and why.
    Ended(Position, End),
    // A record of the index differs.
    Differs(usize),
    // What went wrong was said.
    Failed,
}

// What a check came to.
#[derive(Clone, Copy)]
pub enum Judged {
    // How the index is, at which offset of the recording its last frame ends, and why no more; 0 and `Whole` of an index that differs
    // before.
    As(Result<usize, IndexDiffers>, u64, End),
    // What went wrong was said.
    Failed,
}

// Room for the bytes of a recording that are read at once: a frame has no more.
pub fn bytes() -> [u8; wire::LONGEST]
    ensures { length result ≡ longest }
{
    [0; wire::LONGEST]
}

// Room for the records of as many frames as those bytes have.
fn entries() -> [u8; ENTRY_SIZE * MOST_ENTRIES]
    ensures { length result ≡ entry_size * most_entries }
{
    [0; ENTRY_SIZE * MOST_ENTRIES]
}

// Compares records, before which stand `before` others, with as many bytes of an open index, or those that it still has.
fn compare(
    file: &File,
    index_name: &[u8],
    before: usize,
    fresh: &[u8],
    given: &mut [u8],
    next: Came,
) -> Came
    requires { (before ≤ longest_recording) × (length fresh.now ≤ length given.old) }
    ensures { ComparedOn before fresh.now given.new next result }
{
    let m = fresh.len();
    let Ok(count) = files::read_on(file, index_name, &mut given[..m], 0) else {
        return Came::Failed;
    };
    match check_part(before, fresh, front(given, count)) {
        Ok(_) => next,
        Err(differs) => Came::Differs(differs.at),
    }
}

// Writes or compares the records of a buffer, before which stand `before` others: where that is done, the walk stands as `next` says.
fn hand_on(
    aim: Aim<'_>,
    index_name: &[u8],
    before: usize,
    fresh: &[u8],
    given: &mut [u8],
    next: Came,
) -> Came
    requires { (before ≤ longest_recording) × (length fresh.now ≤ length given.old) }
    ensures { HandedOn aim.entry before fresh.now given.new next result }
{
    match aim {
        Aim::Write(file) => {
            if files::add(file, index_name, fresh) {
                return next;
            }
            Came::Failed
        }
        Aim::Compare(file) => compare(file, index_name, before, fresh, given, next),
    }
}

// Says how much is read, where another 16 MiB are.
pub fn tell_read(rt: &HostRuntime, before: u64, now: u64) {
    if before / OFTEN < now / OFTEN {
        say::progress(rt, now / 0x10_0000);
    }
}

// A walk whose last buffer has `count` bytes, of a recording that had `size` bytes: it has ended, unless bytes were lost since.
pub fn unless_shorter(rt: &HostRuntime, file: &File, size: u64, count: usize, came: Came) -> Came
    requires { LowCame 0 came }
    ensures { StaysOrFails came result }
{
    if let Came::Ended(last, _) = came {
        let total = last.at + last.kept as u64;
        if files::is_shorter(file, size, total, count < wire::LONGEST) {
            say::trouble(rt, Trouble::Shorter, 2, 0);
            return Came::Failed;
        }
    }
    came
}

// Goes over one buffer more of an open recording, which had `size` bytes.
fn walk_on(
    rt: &HostRuntime,
    file: &File,
    name: &[u8],
    size: u64,
    aim: Aim<'_>,
    index_name: &[u8],
    from: Position,
    buf: &mut [u8],
    out: &mut [u8],
    given: &mut [u8],
) -> Came
    requires { Room buf.old out.old given.old × LowPosition from }
    ensures { TurnsTo aim.entry from buf.old buf.new out.old out.new given.new result }
{
    let Ok(count) = files::read_on(file, name, buf, from.kept) else {
        return Came::Failed;
    };
    let before = from.records;
    match walk_step(from, buf, count, out) {
        Walked::On { written, next } => hand_on(
            aim,
            index_name,
            before,
            front(out, written),
            given,
            Came::On(next),
        ),
        Walked::Ended { written, last, end } => unless_shorter(
            rt,
            file,
            size,
            count,
            hand_on(
                aim,
                index_name,
                before,
                front(out, written),
                given,
                Came::Ended(last, end),
            ),
        ),
        Walked::TooLong => {
            say::trouble(rt, Trouble::TooLarge, 2, count);
            Came::Failed
        }
    }
}

// Walks over an open recording, which had `size` bytes, to where its index ends.
fn walk_in(
    rt: &HostRuntime,
    file: &File,
    name: &[u8],
    size: u64,
    aim: Aim<'_>,
    index_name: &[u8],
    buf: &mut [u8],
    out: &mut [u8],
    given: &mut [u8],
) -> Came
    requires { Room buf.old out.old given.old }
    ensures { LoopsAt aim.entry begun buf.old result × LowCame 0 result }
{
    let mut walk = walks::start();
    loop {
        let came = walk_on(rt, file, name, size, aim, index_name, walk, buf, out, given);
        let Came::On(next) = came else {
            return came;
        };
        tell_read(rt, walk.at, next.at);
        walk = next;
    }
}

// Walks over an open recording, and lends the buffers.
//
// Ruled out: records compared with those of another buffer, or under another number; a walk that goes on elsewhere than it stood.
pub fn walk_over(
    rt: &HostRuntime,
    file: &File,
    name: &[u8],
    aim: Aim<'_>,
    index_name: &[u8],
) -> Came
    ensures { LoopsFrom aim.entry begun result × LowCame 0 result }
{
    let mut buf = bytes();
    let mut out = entries();
    let mut given = entries();
    let size = files::length_of(file);
    let came = walk_in(
        rt, file, name, size, aim, index_name, &mut buf, &mut out, &mut given,
    );
    say::no_progress(rt);
    came
}

// Checks what an open index still has after the records of a walk, which ended so: it should be nothing.
fn judge_rest(file: &File, index_name: &[u8], last: Position, end: End) -> Judged
    requires { LowLast last end }
    ensures { JudgedAt last end result × LowJudged result }
{
    let mut more = [0u8; 1];
    let Ok(count) = files::read_on(file, index_name, &mut more, 0) else {
        return Judged::Failed;
    };
    let checked = check_part(last.records, b"", front(&more, count));
    Judged::As(checked, last.at, end)
}

// Checks an open index against an open recording.
fn judge_open(rt: &HostRuntime, file: &File, name: &[u8], index: &File, index_name: &[u8]) -> Judged
    ensures { Judges result × LowJudged result }
{
    match walk_over(rt, file, name, Aim::Compare(index), index_name) {
        Came::Ended(last, end) => judge_rest(index, index_name, last, end),
        Came::Differs(k) => Judged::As(Err(IndexDiffers { at: k }), 0, End::Whole),
        Came::On(_) => Judged::Failed,
        Came::Failed => Judged::Failed,
    }
}

// The same of an index that is as long after it as it was before.
//
// Ruled out: a count of records that leaves out those of earlier buffers; a refused frame whose field begins behind the longest recording.
pub fn judge(rt: &HostRuntime, file: &File, name: &[u8], index: &File, index_name: &[u8]) -> Judged
    ensures { Judges result × LowJudged result }
{
    let size = files::length_of(index);
    let judged = judge_open(rt, file, name, index, index_name);
    if files::is_shorter(index, size, 0, false) {
        say::trouble(rt, Trouble::Shorter, 3, 0);
        return Judged::Failed;
    }
    judged
}
