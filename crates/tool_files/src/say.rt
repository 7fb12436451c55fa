// Lines written: an answer on standard output, trouble on standard error.
use crate::typed::word;
use std::io::IsTerminal;
use telling::{tell_progress, tell_trouble, tell_version};
use troubles::{Blame, Trouble};
use words::line::front;

// The number of standard error.
const STDERR: i32 = 2;

// The longest word that is shown whole.
const LONGEST_SHOWN: usize = 4096;

// An answer. What it speaks of is done by then, so that only the line is lost where standard output is full or closed.
pub fn answer(rt: &HostRuntime, line: &[u8]) {
    if let Err(error) = rt.write_all(line) {
        files::fail(b"standard output", &error);
    }
}

// Trouble with word `i`, or with the file that it names and a number of its bytes.
pub fn trouble(rt: &HostRuntime, trouble: Trouble, i: usize, number: usize) {
    let mut typed = io::buffer();
    let n = word(rt, i, &mut typed);
    let mut shown = io::buffer();
    let name = front(&typed, n);
    let s = files::show(front(name, LONGEST_SHOWN), &mut shown);
    let mut line = io::large_buffer();
    let m = tell_trouble(trouble, number as u64, front(&shown, s), &mut line);
    io::write_all(STDERR, &line[..m]);
}

// Trouble with a word.
pub fn blame(rt: &HostRuntime, blame: Blame) {
    trouble(rt, blame.trouble, blame.word, 0);
}

// Writes to standard error where that is a terminal.
fn show(rt: &HostRuntime, bytes: &[u8]) {
    if rt.stderr().is_terminal() {
        io::write_all(STDERR, bytes);
    }
}

// How much of a recording is read. The next line is written over it: progress over what was said before, or trouble.
pub fn progress(rt: &HostRuntime, mebibytes: u64) {
    let mut line = io::buffer();
    let n = tell_progress(mebibytes, &mut line);
    show(rt, until_end(&line[..n]));
    show(rt, b"\r");
}

// A line without its end.
fn until_end(line: &[u8]) -> &[u8] {
    let n = line.len();
    if n == 0 {
        return line;
    }
    front(line, n - 1)
}

// Takes away what was said of how much is read.
pub fn no_progress(rt: &HostRuntime) {
    show(rt, b"                                        \r");
}

// The version. It is handed over by `osc_tool`, so that a version that is raised leaves this crate, and those over it, as they are.
pub fn version(rt: &HostRuntime, major: u16, minor: u16, patch: u16) {
    let mut line = io::buffer();
    let n = tell_version(major as u64, minor as u64, patch as u64, &mut line);
    answer(rt, &line[..n]);
}

// What the commands are.
const HELP: [u8; 2705] = *b"\
osc decode udp|tcp|tcp-vec|tcp2|tcp2-vec INPUT TABLE [--depth N] [--records N] [--replace]
    reads INPUT and writes its records, 20 bytes each, to TABLE
osc encode udp|tcp|tcp2 TABLE SOURCE OUTPUT [--replace]
    writes the packet of TABLE, whose texts stand in SOURCE, to OUTPUT
osc look TABLE INDEX [--rule a|b]
    says what record INDEX of TABLE holds; the first is 0. With --rule also what osc time says of its time tag
osc index RECORDING INDEX [--replace]
    writes an index of RECORDING, frames of tcp2 end to end, to INDEX: 16 bytes for each frame, up to the first that is not accepted
osc check RECORDING INDEX
    says whether INDEX is the index of RECORDING
osc cue RECORDING INDEX K TABLE PACKET [--replace]
    checks INDEX and writes frame K of RECORDING: its records to TABLE and its packet to PACKET; the first is 0
    the offsets in TABLE count from the first byte of PACKET, so that osc encode udp TABLE PACKET OUTPUT writes the packet again
osc time a|b TAG
osc time a|b SECONDS
    says a Unix time, its time tag and its UTC date. TAG is exactly 16 hexadecimal digits; every other word is SECONDS since 1970, as in
    1763424000.5 or -1, with at most 9 digits after a dot. Rule a counts tags from 1900 to 2036; rule b reads those from 1968 to 2104
osc shift RECORDING OUT BY [--replace]
    writes RECORDING to OUT with each of its time tags moved by BY: seconds, as in 12, -1 or 0.5, at most 4294967295 and with at most 9
    digits after a dot, or hex: and 16 hexadecimal digits. No other byte changes. Tags wrap around, and the tag for at once is moved too
osc help, osc --help, osc -h
    says this
osc --version
    says the version
udp is one packet, tcp the first packet of a stream, and tcp-vec all of them, as rosc has a stream: a length cuts nothing, and none
stands before a bundle. tcp2 and tcp2-vec are the same as OSC 1.0 has it: every packet stands behind its length, which cuts it.
A TABLE or INDEX that exists is replaced or removed only where it could be one: an index is empty, or has a multiple of 16 bytes, the first
8 of them zero; a table is empty, or has a multiple of 20 bytes, the first 4 of them / or # and three zeros. An OUTPUT, PACKET or
OUT that exists is kept. --replace, the last word, says that any file is to be replaced.
Exit status: 0 an answer; 1 a refusal; 2 trouble with a word or a file; 3 Waiting; 4 tcp2-vec, index, check or shift stopped at a frame;
5 the answer could not be written to standard output.
After 1 and 3 no TABLE, PACKET or OUTPUT is left. After 2 nothing was changed. After 4 TABLE or INDEX holds what stands before that frame,
and OUT is as it was. After 5 the files are as the answer says, which is on standard error.
";

// Says what the commands are.
pub fn help(rt: &HostRuntime) {
    answer(rt, &HELP);
}
