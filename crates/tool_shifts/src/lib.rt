// The command shift of the program `osc`: a recording is read buffer by buffer and slid, and written to another file. How far a buffer is
// slid, and whether it is read on, is decided in `slide_walks`: here files are read and written, and the walk's place is kept.
#![tactic(auto)]

mod asked; // asked.rt: what the words mean

ghost use Rattle.std.specs.Prelude.{◌≡◌, ◌+◌};
ghost use Rattle.walks.specs.Walks.{LowPosition};
ghost use Rattle.tool_walks.specs.Runs.{begun};
ghost use Rattle.tool_recordings.specs.CodeCame.{LowCame};
ghost use Rattle.tool_shifts.specs.Slid.{slid_by, SlideRoom, CanStand, StandsAfter, SlidesTo, SlidesAt};

use asked::shift_asked;
use files::Kind;
use results::End;
use slide_steps::TABLE_SIZE;
use slide_walks::{Turn, slide_turn};
use std::fs::File;
use telling::tell_shift;
use tool_files::named::Draft;
use tool_files::typed::word;
use tool_files::{named, say};
use tool_recordings::{Came, bytes, tell_read, unless_shorter};
use troubles::Trouble;
use walks::{Position, keep_rest};
use words::line::front;

// Every offset of a recording has 63 bits.
const LONGEST_RECORDING: u64 = 0x7fff_ffff_ffff_ffff;

// How many bytes of a buffer are slid.
fn slid_by(turn: Turn) -> usize
    ensures { result ≡ slid_by turn }
{
    match turn {
        Turn::On(used) => used,
        Turn::Ended(used, _) => used,
    }
}

// Where the walk stands after a turn over the first `count` bytes of a buffer, whose slid bytes are written: the others are kept.
//
// Ruled out: a byte that was not slid and is not kept; a walk that stands where it stood.
fn stand_after(from: Position, buf: &mut [u8], count: usize, turn: Turn) -> Came
    requires { CanStand from buf.old count turn }
    ensures { StandsAfter from count turn buf.old buf.new result }
{
    let used = slid_by(turn);
    let kept = keep_rest(buf, used, count);
    let next = Position {
        at: from.at + used as u64,
        records: 0,
        kept,
    };
    match turn {
        Turn::On(_) => Came::On(next),
        Turn::Ended(_, end) => Came::Ended(next, end),
    }
}

// Slides one buffer more of an open recording, which had `size` bytes, and writes what is slid to an open file.
fn slide_on(
    rt: &HostRuntime,
    file: &File,
    name: &[u8],
    size: u64,
    by: u64,
    out: &File,
    out_name: &[u8],
    from: Position,
    buf: &mut [u8],
    table: &mut [u8],
) -> Came
    requires { SlideRoom buf.old table.old × LowPosition from }
    ensures { SlidesTo by from buf.old buf.new result }
{
    let Ok(count) = files::read_on(file, name, buf, from.kept) else {
        return Came::Failed;
    };
    if LONGEST_RECORDING - from.at < count as u64 {
        say::trouble(rt, Trouble::TooLarge, 2, count);
        return Came::Failed;
    }
    let turn = slide_turn(buf, count, by, table);
    if !files::add(out, out_name, front(buf, slid_by(turn))) {
        return Came::Failed;
    }
    unless_shorter(rt, file, size, count, stand_after(from, buf, count, turn))
}

// Slides an open recording, which had `size` bytes, to where it ends.
fn slide_in(
    rt: &HostRuntime,
    file: &File,
    name: &[u8],
    size: u64,
    by: u64,
    out: &File,
    out_name: &[u8],
    buf: &mut [u8],
    table: &mut [u8],
) -> Came
    requires { SlideRoom buf.old table.old }
    ensures { SlidesAt by begun buf.old result × LowCame 0 result }
{
    let mut walk = walks::start();
    loop {
        let came = slide_on(rt, file, name, size, by, out, out_name, walk, buf, table);
        let Came::On(next) = came else {
            return came;
        };
        tell_read(rt, walk.at, next.at);
        walk = next;
    }
}

// The same, and lends the buffers.
fn slide_over(
    rt: &HostRuntime,
    file: &File,
    name: &[u8],
    by: u64,
    out: &File,
    out_name: &[u8],
) -> Came
    ensures { LowCame 0 result }
{
    let mut buf = bytes();
    let mut table = [0u8; TABLE_SIZE];
    let size = files::length_of(file);
    let came = slide_in(
        rt, file, name, size, by, out, out_name, &mut buf, &mut table,
    );
    say::no_progress(rt);
    came
}

// Gives the output of a whole recording its name, and leaves nothing of one that stopped; whether that was done.
fn settle(rt: &HostRuntime, end: End, out: File, out_name: &[u8], part: &[u8]) -> bool {
    if let End::Whole = end {
        return files::finish(rt, out, out_name, part);
    }
    files::abandon(rt, out, part);
    true
}

// Settles the output, and says what became of it.
fn end_shift(rt: &HostRuntime, came: Came, out: File, out_name: &[u8], part: &[u8])
    requires { LowCame 0 came }
{
    if let Came::Ended(last, end) = came {
        if settle(rt, end, out, out_name, part) {
            let mut line = io::buffer();
            let n = tell_shift(last.at, end, &mut line);
            say::answer(rt, &line[..n]);
        }
        return;
    }
    files::abandon(rt, out, part);
}

// Shifts an open recording to the file that word 3 names. That is taken for a packet: no file is known by its bytes to be a recording.
fn shift_open(
    rt: &HostRuntime,
    file: &File,
    name: &[u8],
    by: u64,
    out_name: &[u8],
    is_replacing: bool,
) {
    let mut part = io::buffer();
    let Some(draft) = named::begin_word(rt, 3, out_name, Kind::Packet, is_replacing, &mut part)
    else {
        return;
    };
    let came = slide_over(rt, file, name, by, &draft.file, out_name);
    let Draft { file: out, length } = draft;
    end_shift(rt, came, out, out_name, front(&part, length));
}

// Shifts the file that word 2 names to the one that word 3 names.
fn shift_file(rt: &HostRuntime, by: u64, is_replacing: bool) {
    let mut name = io::buffer();
    let n = named::name_word(rt, 2, &mut name);
    if n == 0 {
        return;
    }
    let mut out_name = io::buffer();
    let m = named::name_word(rt, 3, &mut out_name);
    if m == 0 {
        return;
    }
    if let Some(file) = named::open_word(rt, 2, 3, &name[..n]) {
        shift_open(rt, &file, &name[..n], by, &out_name[..m], is_replacing);
        files::close(file);
    }
}

// Of its words there are `count`, --replace not counted.
pub fn run(rt: &HostRuntime, count: usize, is_replacing: bool) {
    let mut amount = io::buffer();
    let n = word(rt, 4, &mut amount);
    match shift_asked(count, &amount[..n]) {
        Ok(by) => shift_file(rt, by, is_replacing),
        Err(blame) => say::blame(rt, blame),
    }
}
