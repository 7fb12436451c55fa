// The words of the command, as they were typed.
ghost use Rattle.io.specs.Counts.{IsPrefixLen};

use std::env::{Env, FillError};
use std::io::Error;

// The system's numbers of the errors that there is no such word, and that it is too long.
const NO_WORD: i32 = 22;

const TOO_LONG: i32 = 36;

// How many words there are, the program's own name among them.
pub fn word_count(rt: &HostRuntime) -> usize {
    for i in 0..usize::MAX {
        if let Err(FillError::NotPresent) = rt.arg(i, &mut []) {
            return i;
        }
    }
    usize::MAX
}

// Puts word `i` at the start of `buf`, and answers its length; 0 where it is missing, or longer than `buf`.
pub fn word(rt: &HostRuntime, i: usize, buf: &mut [u8]) -> usize
    ensures { IsPrefixLen result buf.new }
{
    match rt.arg(i, buf) {
        Ok(n) => n,
        Err(_) => 0,
    }
}

// Why a word was not put there, as the system says it.
pub fn reason_of(error: FillError) -> Error {
    match error {
        FillError::NotPresent => Error::from_raw_os_error(NO_WORD),
        FillError::TooLong => Error::from_raw_os_error(TOO_LONG),
    }
}
