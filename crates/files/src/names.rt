// Calls of the system by a file's name. std takes a name as text, so one whose bytes are not UTF-8 is refused, as by a system that has no
// such names.
ghost use Rattle.std.specs.Prelude.{IfSome};
ghost use Rattle.io.specs.Counts.{IsPrefixLen};

use std::fs;
use std::fs::{File, OpenOptions};
use std::io::{Error, Result};
use wire::copy;

// The system's number of the error that a name is no text.
const NO_TEXT: i32 = 84;

// A name as std takes it.
fn text_of(path: &[u8]) -> Result<&str> {
    str::from_utf8(path).map_err(|_| Error::from_raw_os_error(NO_TEXT))
}

// Opens a file to read it.
pub fn open_read(rt: &HostRuntime, path: &[u8]) -> Result<File> {
    File::open(rt, text_of(path)?)
}

// Opens a file to read and write it, and leaves its bytes as they are.
pub fn open_update(rt: &HostRuntime, path: &[u8]) -> Result<File> {
    let name = text_of(path)?;
    OpenOptions::new().read(true).write(true).open(rt, name)
}

// Makes a file to write it, under a name that nothing has.
pub fn create(rt: &HostRuntime, path: &[u8]) -> Result<File> {
    let name = text_of(path)?;
    OpenOptions::new()
        .write(true)
        .create_new(true)
        .open(rt, name)
}

// Gives a file another name.
pub fn rename(rt: &HostRuntime, from: &[u8], to: &[u8]) -> Result<()> {
    fs::rename(rt, text_of(from)?, text_of(to)?)
}

// Takes a name away.
pub fn unlink(rt: &HostRuntime, path: &[u8]) -> Result<()> {
    fs::remove_file(rt, text_of(path)?)
}

// Whether a name is that of a link.
pub fn is_link(rt: &HostRuntime, path: &[u8]) -> bool {
    text_of(path)
        .and_then(|name| fs::symlink_metadata(rt, name))
        .is_ok_and(|found| found.is_symlink())
}

// Puts bytes at the start of `text`, and answers how many they are; none where there are none, or no room for them.
fn put(bytes: &[u8], text: &mut [u8]) -> Option<usize>
    ensures { IfSome result (λ n. IsPrefixLen n text.new) }
{
    let n = bytes.len();
    if n == 0 || text.len() < n {
        return None;
    }
    copy(bytes, text);
    Some(n)
}

// Puts the text of a link at the start of `text`, and answers how long it is; none where the name is that of no link, or the text is not told.
pub fn link_at(rt: &HostRuntime, path: &[u8], text: &mut [u8]) -> Option<usize>
    ensures { IfSome result (λ n. IsPrefixLen n text.new) }
{
    let name = text_of(path).ok()?;
    let found = fs::read_link(rt, name).ok()?;
    put(found.into_string().as_bytes(), text)
}
