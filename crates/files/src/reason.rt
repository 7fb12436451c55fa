// What is said of an error.
ghost use Rattle.std.specs.Prelude.{◌≤◌, length};
ghost use Rattle.io.specs.Counts.{IsPrefixLen};

use std::io::{Cursor, Error, Write};
use words::line::front;

// Puts what std writes of an error at the start of `out`, as far as there is room, and answers how long that is.
fn put_said(error: &Error, out: &mut [u8]) -> usize
    ensures { IsPrefixLen result out.new }
{
    let mut to = Cursor::new(&mut out[..]);
    let _ = write!(to, "{error}");
    let n = to.position() as usize;
    if out.len() < n {
        return 0;
    }
    n
}

// Where the system's own words end: std puts " (os error N)" after them.
fn words_end(said: &[u8]) -> usize
    ensures { result ≤ length said.now }
{
    said.iter()
        .rposition(|b| *b == b'(')
        .map_or(said.len(), |i| i.saturating_sub(1))
}

// Puts what is said of an error at the start of `out`, and answers how long that is: the system's own words, where it is the system's.
pub fn put_reason(error: &Error, out: &mut [u8]) -> usize
    ensures { IsPrefixLen result out.new }
{
    let n = put_said(error, out);
    match error.raw_os_error() {
        Some(_) => words_end(front(out, n)),
        None => n,
    }
}
