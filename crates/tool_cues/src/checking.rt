// The command check: whether an index is that of a recording.
use commands::check_asked;
use std::fs::File;
use telling::tell_checked;
use tool_files::{named, say};
use tool_recordings::{Judged, judge};

// Checks an open index against an open recording, and says how it is and where the recording's frames end.
fn check_open(rt: &HostRuntime, file: &File, name: &[u8], index: &File, index_name: &[u8]) {
    if let Judged::As(checked, at, end) = judge(rt, file, name, index, index_name) {
        let mut line = io::buffer();
        let n = tell_checked(checked, at, end, &mut line);
        say::answer(rt, &line[..n]);
    }
}

// Checks the index that word 3 names against an open recording.
fn check_with(rt: &HostRuntime, file: &File, name: &[u8]) {
    let mut index_name = io::buffer();
    let m = named::name_word(rt, 3, &mut index_name);
    if m == 0 {
        return;
    }
    if let Ok(index) = files::open(rt, &index_name[..m]) {
        check_open(rt, file, name, &index, &index_name[..m]);
        files::close(index);
    }
}

// Checks the file that word 3 names against the one that word 2 names.
fn check_file(rt: &HostRuntime) {
    let mut name = io::buffer();
    let n = named::name_word(rt, 2, &mut name);
    if n == 0 {
        return;
    }
    if let Ok(file) = files::open(rt, &name[..n]) {
        check_with(rt, &file, &name[..n]);
        files::close(file);
    }
}

pub fn run(rt: &HostRuntime, count: usize) {
    match check_asked(count) {
        Ok(()) => check_file(rt),
        Err(blame) => say::blame(rt, blame),
    }
}
