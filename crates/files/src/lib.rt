// Files, read into a lent buffer, whole or in pieces, and written beside and then renamed, so that no half-written file is left. Where a
// call of the system fails, what it says is said on standard error, after the program's name.
#![tactic(auto)]

mod input; // input.rt: a file read
mod pieces; // pieces.rt: a file read in pieces
mod one; // one.rt: whether two open files are one
mod fit; // fit.rt: whether a file could be what a command writes
mod links; // links.rt: the file that a name leads to
mod places; // places.rt: whether a new file may take a name
mod output; // output.rt: a file written or removed
mod beside; // beside.rt: the name under which a file is written first
mod names; // names.rt: calls of the system by a file's name
mod shown; // shown.rt: a name as it is shown
mod reason; // reason.rt: what is said of an error

pub use fit::Kind;
pub use input::{read, read_apart};
pub use one::{is_beside, is_output};
pub use output::{abandon, add, begin, finish, finish_both, remove, write};
pub use pieces::{Unread, close, is_shorter, length_of, open, open_apart, read_at, read_on};
pub use places::{Place, Refused, place_of};
use reason::put_reason;
pub use shown::show;
use std::io::Error;
use words::line::front;

// The number of standard error.
const STDERR: i32 = 2;

// The longest name that is shown whole.
const LONGEST_SHOWN: usize = 4096;

// Says why a call of the system failed, and of which file.
pub fn fail(path: &[u8], error: &Error) {
    let mut name = io::buffer();
    let n = show(front(path, LONGEST_SHOWN), &mut name);
    let mut reason = [0u8; 256];
    let m = put_reason(error, &mut reason);
    io::write_all(STDERR, b"osc: ");
    io::write_all(STDERR, front(&name, n));
    io::write_all(STDERR, b": ");
    io::write_all(STDERR, front(&reason, m));
    io::write_all(STDERR, b"\n");
}
