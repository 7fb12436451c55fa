// A file, read into a lent buffer.
ghost use Rattle.std.specs.Prelude.{◌≡◌, ◌<◌, IfOk, IfErr, length};
ghost use Rattle.io.specs.Counts.{IsPrefixLen};
ghost use Rattle.files.specs.Rest.{Before, count_of};

use crate::pieces::{Unread, failed, open, open_apart, read_on};
use std::fs::File;
use std::io::Read;

// Reads once, or says why it cannot.
fn read_once(mut file: &File, path: &[u8], buf: &mut [u8]) -> Result<usize, Unread>
    ensures { IfOk result (λ n. IsPrefixLen n buf.new) }
{
    file.read(buf).map_err(|error| failed(path, &error))
}

// Reads until the buffer is full or the file ends. Where it cannot, it says why, and answers how many bytes were read before.
pub fn read_up(file: &File, path: &[u8], buf: &mut [u8]) -> Result<usize, usize>
    ensures read { IfOk result (λ n. IsPrefixLen n buf.new) }
    ensures before { IfErr result (λ n. n < length buf.new) }
{
    let mut done = 0;
    while done < buf.len() {
        let Ok(n) = read_once(file, path, &mut buf[done..]) else {
            return Err(done);
        };
        if n == 0 {
            break;
        }
        done += n;
    }
    Ok(done)
}

// Reads a file from its start, as much of it as the buffer holds, or says why it cannot.
//
// Ruled out: a count past the buffer's end; what was read first counted again with each read after it.
pub fn read(rt: &HostRuntime, path: &[u8], buf: &mut [u8]) -> Result<usize, Unread>
    ensures read { IfOk result (λ n. IsPrefixLen n buf.new) }
    ensures before { IfErr result (λ unread. Before buf.new (count_of unread)) }
{
    let file = open(rt, path)?;
    read_on(&file, path, buf, 0)
}

// The same of a file that is not the one to be written, or can be told from it.
//
// Ruled out: a count past the buffer's end; the length of the whole file where the buffer holds less of it.
pub fn read_apart(
    rt: &HostRuntime,
    path: &[u8],
    output: &[u8],
    buf: &mut [u8],
) -> Result<usize, Unread>
    ensures read { IfOk result (λ n. IsPrefixLen n buf.new) }
    ensures before { IfErr result (λ unread. Before buf.new (count_of unread)) }
{
    let file = open_apart(rt, path, output)?;
    read_on(&file, path, buf, 0)
}
