// A file, written whole or not at all.
ghost use Rattle.std.specs.Prelude.{◌≡◌, ◌≤◌, length};
ghost use Rattle.io.specs.Counts.{IsPrefixLen};
ghost use Rattle.files.specs.Beside.{longest_name};
ghost use Rattle.files.specs.Told.{ToldBegun, ToldName};

use crate::beside::{LONGEST_NAME, target_of};
use crate::fit::Kind;
use crate::links::follow;
use crate::names::{create, rename, unlink};
use crate::pieces::close;
use crate::places::{Place, Refused, place_of};
use crate::{beside, fail};
use std::fs::File;
use std::io::{Error, ErrorKind, Write};
use std::process;
use words::line::front;

// How many names are tried for the file beside.
const MOST_NAMES: u64 = 100;

// The system's number of the error that a name is taken.
const TAKEN: i32 = 17;

// Puts the name of the file that is written first at the start of `name`, and answers its length: `k` tells it from others of this process.
fn put_beside(rt: &HostRuntime, target: &[u8], k: u64, name: &mut [u8]) -> usize
    requires { (length target.now ≤ longest_name) × (4095 ≤ length name.old) × (k ≤ 100) }
    ensures { IsPrefixLen result name.new × (length name.new ≡ length name.old) }
{
    let mut digits = [0u8; 16];
    let pid = process::id(rt.process());
    io::hex(beside::number_with(pid, k), 16, &mut digits);
    beside::put_name(target, &digits, name)
}

// Makes the file beside, by the first name that is free, and answers it and how long its name is, which is at the start of `part`.
fn create_beside(
    rt: &HostRuntime,
    path: &[u8],
    target: &[u8],
    part: &mut [u8],
) -> Result<(File, usize), Refused>
    requires { (length path.now ≤ longest_name) × (length target.now ≤ longest_name) × (4095 ≤ length part.old) }
    ensures { ToldBegun path.now result }
{
    let mut n = 0;
    for k in 0..MOST_NAMES {
        n = put_beside(rt, target, k, part);
        match create(rt, front(part, n)) {
            Ok(file) => return Ok((file, n)),
            Err(error) => {
                if error.kind() != ErrorKind::AlreadyExists {
                    fail(path, &error);
                    return Err(Refused::Failed);
                }
            }
        }
    }
    fail(front(part, n), &Error::from_raw_os_error(TAKEN));
    Err(Refused::Failed)
}

// The same of the file that the name leads to.
fn begin_beside(rt: &HostRuntime, path: &[u8], part: &mut [u8]) -> Result<(File, usize), Refused>
    requires { (length path.now ≤ longest_name) × (4095 ≤ length part.old) }
    ensures { ToldBegun path.now result }
{
    let mut target = io::buffer();
    let n = follow(rt, path, &mut target).ok_or(Refused::NoFile)?;
    create_beside(rt, path, &target[..n], part)
}

// Makes the file beside, in which a file is written, piece by piece, before it has its name: `finish` or `abandon` comes last. Its own name
// is put at the start of `part`, and how long that is is answered with the file.
//
// Ruled out: a name of 4,074 bytes refused for its length; one of 4,075 bytes taken.
pub fn begin(
    rt: &HostRuntime,
    path: &[u8],
    kind: Kind,
    is_replacing: bool,
    part: &mut [u8],
) -> Result<(File, usize), Refused>
    requires { 4095 ≤ length part.old }
    ensures { ToldBegun path.now result }
{
    if LONGEST_NAME < path.len() {
        return Err(Refused::LongName);
    }
    place_of(rt, path, kind, is_replacing)?;
    begin_beside(rt, path, part)
}

// Writes a piece after those before it, or says why it cannot.
pub fn add(mut file: &File, path: &[u8], bytes: &[u8]) -> bool {
    match file.write_all(bytes) {
        Ok(()) => true,
        Err(error) => {
            fail(path, &error);
            false
        }
    }
}

// Waits until what was written is on the device and not only with the system, which may have no room for it later. Where that fails, it
// says why.
fn settle(file: &File, path: &[u8]) -> bool {
    match file.sync_all() {
        Ok(()) => true,
        Err(error) => {
            fail(path, &error);
            false
        }
    }
}

// Gives the file beside its name. Where that fails, it says why.
fn take_name(rt: &HostRuntime, path: &[u8], part: &[u8]) -> bool {
    match rename(rt, part, target_of(part)) {
        Ok(()) => true,
        Err(error) => {
            fail(path, &error);
            false
        }
    }
}

// Gives what was written its name. Where that fails, it says why, and nothing is left changed.
pub fn finish(rt: &HostRuntime, file: File, path: &[u8], part: &[u8]) -> bool {
    if settle(&file, path) && take_name(rt, path, part) {
        return true;
    }
    abandon(rt, file, part);
    false
}

// Leaves nothing of what was written.
pub fn abandon(rt: &HostRuntime, file: File, part: &[u8]) {
    close(file);
    let _ = unlink(rt, part);
}

// Gives two files their names. Where that fails, it says why, and neither is left.
fn take_both(rt: &HostRuntime, path: &[u8], part: &[u8], other: &[u8], other_part: &[u8]) -> bool {
    if take_name(rt, other, other_part) {
        if take_name(rt, path, part) {
            return true;
        }
        let _ = unlink(rt, target_of(other_part));
    }
    false
}

// Gives two files that were written their names, both or neither: what is in them is on the device first. The second is named first: it is
// the one of which no old file is kept.
pub fn finish_both(
    rt: &HostRuntime,
    file: File,
    path: &[u8],
    part: &[u8],
    other_file: File,
    other: &[u8],
    other_part: &[u8],
) -> bool {
    if settle(&file, path) {
        if settle(&other_file, other) {
            if take_both(rt, path, part, other, other_part) {
                return true;
            }
        }
    }
    abandon(rt, file, part);
    abandon(rt, other_file, other_part);
    false
}

// Writes all the bytes of a file that was begun; whether it has its name now.
fn write_begun(rt: &HostRuntime, file: File, path: &[u8], part: &[u8], bytes: &[u8]) -> bool {
    if add(&file, path, bytes) {
        return finish(rt, file, path, part);
    }
    abandon(rt, file, part);
    false
}

// Writes a file whole or not at all.
//
// Ruled out: a file said to be written under a name of 4,075 bytes; a name of 4,074 bytes refused for its length.
pub fn write(
    rt: &HostRuntime,
    path: &[u8],
    kind: Kind,
    is_replacing: bool,
    bytes: &[u8],
) -> Result<(), Refused>
    ensures { ToldName path.now result }
{
    let mut part = io::buffer();
    let (file, n) = begin(rt, path, kind, is_replacing, &mut part)?;
    if write_begun(rt, file, path, front(&part, n), bytes) {
        return Ok(());
    }
    Err(Refused::Failed)
}

// Removes the file that a name leads to. A name that nothing has is as it should be; one of which it is not told where it leads is none
// whose file can be removed.
fn remove_file(rt: &HostRuntime, path: &[u8]) -> Result<(), Refused>
    requires { length path.now ≤ longest_name }
    ensures { ToldName path.now result }
{
    let mut target = io::buffer();
    let n = follow(rt, path, &mut target).ok_or(Refused::NoFile)?;
    match unlink(rt, &target[..n]) {
        Ok(()) => Ok(()),
        Err(error) => {
            if error.kind() == ErrorKind::NotFound {
                return Ok(());
            }
            fail(path, &error);
            Err(Refused::Failed)
        }
    }
}

// Removes a file, where the name has one that could be written and may be replaced.
//
// Ruled out: a name of 4,074 bytes refused for its length; one of 4,075 bytes removed.
pub fn remove(rt: &HostRuntime, path: &[u8], kind: Kind, is_replacing: bool) -> Result<(), Refused>
    ensures { ToldName path.now result }
{
    if LONGEST_NAME < path.len() {
        return Err(Refused::LongName);
    }
    match place_of(rt, path, kind, is_replacing)? {
        Place::Free => Ok(()),
        Place::Held => remove_file(rt, path),
    }
}
