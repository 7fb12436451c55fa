// The command cue: a frame of a recording, by its number, to a table and its packet.
ghost use Rattle.std.specs.Prelude.{◌≡◌, ◌*◌, take, drop};
ghost use Rattle.cues.specs.Cues.{entry_size};

use commands::cue_asked;
use cues::{ENTRY_SIZE, cue_at};
use files::Kind;
use outcomes::{cue_told, frame_told};
use std::fs::File;
use tool_files::typed::word;
use tool_files::{named, say};
use tool_recordings::{Judged, judge};
use troubles::Trouble;
use words::line::front;

// Decodes a packet, whose frame begins at an offset of the recording, to the file that word 5 names, and writes it to the one that word 6
// names.
fn decode_packet(rt: &HostRuntime, packet: &[u8], at: u64, is_replacing: bool) {
    let mut table = io::large_buffer();
    let mut line = io::buffer();
    let told = frame_told(packet, at, &mut table, &mut line);
    named::keep_both(rt, 5, 6, is_replacing, told, &table, packet, &line);
}

// The packet of a frame, which has so many bytes after its prefix.
//
// Ruled out: the prefix as a part of the packet; bytes of the next frame.
fn packet_in(frame: &[u8], size: usize) -> &[u8]
    ensures { result.now ≡ take size (drop 4 frame.now) }
{
    if frame.len() < 4 {
        return front(frame, 0);
    }
    front(&frame[4..], size)
}

// Decodes the frame at an offset of an open recording, of so many bytes without its prefix.
fn decode_at(
    rt: &HostRuntime,
    file: &File,
    name: &[u8],
    offset: u64,
    size: u32,
    is_replacing: bool,
) {
    let mut bytes = io::large_buffer();
    let Ok(n) = files::read_at(file, name, offset, &mut bytes) else {
        return;
    };
    if n < size as usize + 4 {
        say::trouble(rt, Trouble::Shorter, 2, 0);
        return;
    }
    decode_packet(
        rt,
        packet_in(&bytes[..n], size as usize),
        offset,
        is_replacing,
    );
}

// Where record `k` of an index begins.
//
// Ruled out: a number cut to 16 bits; that of the record before.
fn entry_start(k: u32) -> u64
    ensures { result ≡ k * entry_size }
{
    k as u64 * 16
}

// Decodes the frame of record `k` of an index that was checked.
fn decode_cue(
    rt: &HostRuntime,
    file: &File,
    name: &[u8],
    index: &File,
    index_name: &[u8],
    k: u32,
    is_replacing: bool,
) {
    let mut entry = [0u8; ENTRY_SIZE];
    let Ok(n) = files::read_at(index, index_name, entry_start(k), &mut entry) else {
        return;
    };
    match cue_at(front(&entry, n), 0) {
        Ok(cue) => decode_at(rt, file, name, cue.offset, cue.size, is_replacing),
        Err(_) => say::trouble(rt, Trouble::Shorter, 3, 0),
    }
}

// Checks an open index, and then decodes cue `k`.
fn cue_open(
    rt: &HostRuntime,
    file: &File,
    name: &[u8],
    index: &File,
    index_name: &[u8],
    k: u32,
    is_replacing: bool,
) {
    if let Judged::As(checked, _, _) = judge(rt, file, name, index, index_name) {
        let mut line = io::buffer();
        match cue_told(checked, k, &mut line) {
            Ok(k) => decode_cue(rt, file, name, index, index_name, k, is_replacing),
            Err(told) => named::keep_both(rt, 5, 6, is_replacing, told, b"", b"", &line),
        }
    }
}

// The same where both outputs may be written: that is seen first, since a check may take long.
fn cue_apart(
    rt: &HostRuntime,
    file: &File,
    name: &[u8],
    index: &File,
    index_name: &[u8],
    k: u32,
    is_replacing: bool,
) {
    if !named::is_apart(rt, index, 3, 6) {
        return;
    }
    if !named::may_take(rt, 5, Kind::Table, is_replacing) {
        return;
    }
    if !named::may_take(rt, 6, Kind::Packet, is_replacing) {
        return;
    }
    cue_open(rt, file, name, index, index_name, k, is_replacing);
}

// Decodes cue `k` of an open recording by the index that word 3 names.
fn cue_with(rt: &HostRuntime, file: &File, name: &[u8], k: u32, is_replacing: bool) {
    let mut index_name = io::buffer();
    let m = named::name_word(rt, 3, &mut index_name);
    if m == 0 {
        return;
    }
    if let Some(index) = named::open_word(rt, 3, 5, &index_name[..m]) {
        cue_apart(rt, file, name, &index, &index_name[..m], k, is_replacing);
        files::close(index);
    }
}

// Decodes cue `k` of the recording that word 2 names.
fn cue_file(rt: &HostRuntime, k: u32, is_replacing: bool) {
    let mut name = io::buffer();
    let n = named::name_word(rt, 2, &mut name);
    if n == 0 {
        return;
    }
    if let Some(file) = named::open_word(rt, 2, 5, &name[..n]) {
        if named::is_apart(rt, &file, 2, 6) {
            cue_with(rt, &file, &name[..n], k, is_replacing);
        }
        files::close(file);
    }
}

// Of its words there are `count`, --replace not counted.
pub fn run(rt: &HostRuntime, count: usize, is_replacing: bool) {
    let mut number = io::buffer();
    let n = word(rt, 4, &mut number);
    match cue_asked(count, &number[..n]) {
        Ok(k) => cue_file(rt, k, is_replacing),
        Err(blame) => say::blame(rt, blame),
    }
}
