// Whether two open files are one: the system has a link for each descriptor, which holds the file's own name. So two names of one
// file by links and by folders are told; two names that it has in its own right (hard links) are not, and there the other name keeps
// the bytes.
ghost use Rattle.std.specs.Prelude.{IfSome};
ghost use Rattle.io.specs.Counts.{IsPrefixLen};
ghost use Rattle.files.specs.Names.{Ended};

use crate::beside::{number_of, target_of};
use crate::names::{link_at, open_update};
use std::fs::File;
use std::os::fd::AsRawFd;
use wire::copy;
use words::line::{front, until};

// The name of the link for a descriptor, whose digits are given, with zeros after them.
fn link_with(digits: &[u8; 20]) -> [u8; 4096]
    ensures { Ended result }
{
    let mut path = io::buffer();
    copy(b"/proc/self/fd/", &mut path);
    copy(digits, &mut path[14..]);
    path[4095] = 0;
    path
}

// The name of the link for an open file's descriptor.
fn link_of(file: &File) -> [u8; 4096]
    ensures { Ended result }
{
    let mut digits = [0u8; 20];
    io::decimal(number_of(file.as_raw_fd()), &mut digits);
    link_with(&digits)
}

// Puts the name that the system has for an open file at the start of `name`, and answers how long it is; none where it is not told.
fn own_name(rt: &HostRuntime, file: &File, name: &mut [u8]) -> Option<usize>
    ensures { IfSome result (λ n. IsPrefixLen n name.new) }
{
    let link = link_of(file);
    let n = until(&link, 0, 0);
    link_at(rt, front(&link, n), name)
}

// Whether two open files are one, or cannot be told apart.
fn is_one(rt: &HostRuntime, a: &File, b: &File) -> bool {
    let mut name = io::buffer();
    let mut other = io::buffer();
    match (own_name(rt, a, &mut name), own_name(rt, b, &mut other)) {
        (Some(n), Some(m)) => &name[..n] == &other[..m],
        _ => true,
    }
}

// Whether an open file is the one that would be written under a name, or cannot be told from it. A name that cannot be opened to be
// written is none that will be.
pub fn is_output(rt: &HostRuntime, file: &File, output: &[u8]) -> bool {
    open_update(rt, output).is_ok_and(|other| is_one(rt, file, &other))
}

// Whether two open files that are written beside others are beside the same one, or cannot be told apart: their names differ in their last
// digits alone.
pub fn is_beside(rt: &HostRuntime, a: &File, b: &File) -> bool {
    let mut name = io::buffer();
    let n = own_name(rt, a, &mut name).unwrap_or(0);
    let mut other = io::buffer();
    let m = own_name(rt, b, &mut other).unwrap_or(0);
    target_of(&name[..n]) == target_of(&other[..m])
}
