// The command index: the cue index of a recording.
ghost use Rattle.tool_recordings.specs.CodeCame.{LowCame};

use commands::index_asked;
use files::Kind;
use std::fs::File;
use telling::tell_index;
use tool_files::named::Draft;
use tool_files::{named, say};
use tool_recordings::{Aim, Came, walk_over};
use words::line::front;

// Gives the index its name and says what it holds, or leaves nothing of it.
fn end_index(rt: &HostRuntime, came: Came, file: File, index_name: &[u8], part: &[u8])
    requires { LowCame 0 came }
{
    if let Came::Ended(last, end) = came {
        if files::finish(rt, file, index_name, part) {
            let mut line = io::buffer();
            let n = tell_index(last.records, last.at, end, &mut line);
            say::answer(rt, &line[..n]);
        }
        return;
    }
    files::abandon(rt, file, part);
}

// Writes the index of an open recording.
fn index_open(rt: &HostRuntime, file: &File, name: &[u8], index_name: &[u8], is_replacing: bool) {
    let mut part = io::buffer();
    let Some(draft) = named::begin_word(rt, 3, index_name, Kind::Index, is_replacing, &mut part)
    else {
        return;
    };
    let came = walk_over(rt, file, name, Aim::Write(&draft.file), index_name);
    let Draft { file: out, length } = draft;
    end_index(rt, came, out, index_name, front(&part, length));
}

// Writes the index of the file that word 2 names to the one that word 3 names.
fn index_file(rt: &HostRuntime, is_replacing: bool) {
    let mut name = io::buffer();
    let n = named::name_word(rt, 2, &mut name);
    if n == 0 {
        return;
    }
    let mut index_name = io::buffer();
    let m = named::name_word(rt, 3, &mut index_name);
    if m == 0 {
        return;
    }
    if let Some(file) = named::open_word(rt, 2, 3, &name[..n]) {
        index_open(rt, &file, &name[..n], &index_name[..m], is_replacing);
        files::close(file);
    }
}

// Of its words there are `count`, --replace not counted.
pub fn run(rt: &HostRuntime, count: usize, is_replacing: bool) {
    match index_asked(count) {
        Ok(()) => index_file(rt, is_replacing),
        Err(blame) => say::blame(rt, blame),
    }
}
