// A file that is read in pieces: it is opened once, and each piece is put after the bytes that are still needed.
ghost use Rattle.std.specs.Prelude.{◌≡◌, ◌≤◌, IfOk, IfErr, length};
ghost use Rattle.io.specs.Counts.{IsPrefixLen};
ghost use Rattle.files.specs.Numbers.{place_of, ends_early, has_lost};
ghost use Rattle.files.specs.Rest.{Before, ReadOn, count_of};

use crate::fail;
use crate::input::read_up;
use crate::names::open_read;
use crate::one::is_output;
use std::fs::File;
use std::io::{Error, Seek, SeekFrom};

// Why a file was not opened or read.
#[derive(Clone, Copy)]
pub enum Unread {
    // It is the one to be written, or cannot be told from it.
    Output,
    // A call of the system failed, and it was said why: `count` bytes stand at the start of the buffer by then.
    Failed { count: usize },
}

// Says why a call of the system failed, before which nothing was read.
pub fn failed(path: &[u8], error: &Error) -> Unread
    ensures { count_of result ≡ 0 }
{
    fail(path, error);
    Unread::Failed { count: 0 }
}

// Opens a file to read it; it is closed where it is let go.
pub fn open(rt: &HostRuntime, path: &[u8]) -> Result<File, Unread>
    ensures { IfErr result (λ unread. count_of unread ≡ 0) }
{
    open_read(rt, path).map_err(|error| failed(path, &error))
}

// The same of a file that is not the one to be written, or can be told from it.
pub fn open_apart(rt: &HostRuntime, path: &[u8], output: &[u8]) -> Result<File, Unread>
    ensures { IfErr result (λ unread. count_of unread ≡ 0) }
{
    let file = open(rt, path)?;
    if is_output(rt, &file, output) {
        return Err(Unread::Output);
    }
    Ok(file)
}

// Reads on after the first `kept` bytes of the buffer, until it is full or the file ends, or says why it cannot. The count is that of all
// bytes that stand there then, so that the file has ended where it is less than the buffer's length.
//
// Ruled out: bytes that were kept and are read over; a count that leaves them out, or goes past the buffer's end.
pub fn read_on(file: &File, path: &[u8], buf: &mut [u8], kept: usize) -> Result<usize, Unread>
    requires { kept ≤ length buf.old }
    ensures { ReadOn kept buf.old buf.new result }
{
    match read_up(file, path, &mut buf[kept..]) {
        Ok(n) => Ok(kept + n),
        Err(n) => Err(Unread::Failed { count: kept + n }),
    }
}

// Reads from an offset of the file until the buffer is full or the file ends, or says why it cannot.
//
// Ruled out: a count past the buffer's end; the offset counted with the bytes that are read.
pub fn read_at(file: &File, path: &[u8], offset: u64, buf: &mut [u8]) -> Result<usize, Unread>
    ensures read { IfOk result (λ n. IsPrefixLen n buf.new) }
    ensures before { IfErr result (λ unread. Before buf.new (count_of unread)) }
{
    let from = SeekFrom::Start(place_of(offset).cast_unsigned());
    seek(file, from).map_err(|error| failed(path, &error))?;
    read_on(file, path, buf, 0)
}

// Moves to where the next read begins, and answers the offset.
fn seek(mut file: &File, to: SeekFrom) -> Result<u64, Error> {
    file.seek(to)
}

// An offset as the system has it, which has none that is negative or over 2^63 - 1.
//
// Ruled out: an offset cut to 32 bits; a place for an offset of 2^63.
#[tactic(auto, unfolding(crate::specs::Numbers::place_of))]
fn place_of(offset: u64) -> i64
    ensures { result ≡ place_of offset }
{
    i64::try_from(offset).unwrap_or(-1)
}

// How long an open file is; 0 where the system does not tell. The next read begins at its start.
pub fn length_of(file: &File) -> u64 {
    let end = seek(file, SeekFrom::End(0));
    let _ = seek(file, SeekFrom::Start(0));
    end.unwrap_or(0)
}

// Whether a file that had `size` bytes ended after `total` of them, which are fewer.
fn ends_early(size: u64, total: u64, is_end: bool) -> bool
    ensures { result ≡ ends_early size total is_end }
{
    is_end && total < size
}

// Whether a file that had `size` bytes and has `now` has lost some: it is shorter now, or `total` bytes were read of it and it has fewer,
// or it ended there. Of a file whose length the system does not tell, none is missed.
//
// Ruled out: a file that ended too early taken for whole; one that grew taken for shorter.
#[tactic(auto, unfolding(crate::specs::Numbers::has_lost))]
fn has_lost(size: u64, now: u64, total: u64, is_end: bool) -> bool
    ensures { result ≡ has_lost size now total is_end }
{
    size != 0 && (ends_early(size, total, is_end) || now < size || now < total)
}

// The same of an open file.
pub fn is_shorter(file: &File, size: u64, total: u64, is_end: bool) -> bool {
    has_lost(size, length_of(file), total, is_end)
}

// Closes it: a file is closed where it is let go.
pub fn close(_file: File) {}
