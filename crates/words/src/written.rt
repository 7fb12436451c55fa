// An answer as text, in memory of a fixed size.
ghost use Rattle.std.specs.Prelude.{◌≡◌, ◌≤◌, ◌++◌, take, nat_abs};

use std::fmt;

// How many bytes an answer has at most.
const ROOM: usize = 256;

// An answer: the first `len` of the bytes. `write!` puts text after them, and what has no room is left out.
#[derive(Clone, Copy)]
pub struct Answer {
    pub bytes: [u8; ROOM],
    pub len: usize,
    ghost within: { len ≤ 256 },
}

impl Answer {
    // An answer that says nothing yet.
    //
    // Ruled out: an answer of 256 zeros.
    pub fn new() -> Answer
        ensures { result.len ≡ 0 }
    {
        Answer {
            bytes: [0; ROOM],
            len: 0,
        }
    }

    // What is said.
    //
    // Ruled out: the bytes without the last; all the room.
    pub fn as_bytes(&self) -> &[u8]
        ensures { result.now ≡ take self.now.len self.now.bytes }
    {
        &self.bytes[..self.len]
    }

    // Puts text after what is said. What has no room is left out.
    //
    // Ruled out: text over what is said; the end of a text in the place of its front.
    pub fn push(&mut self, text: &[u8])
        ensures { take self.new.len self.new.bytes ≡ take 256 (take self.old.len self.old.bytes ++ text.now) }
    {
        let at = self.len;
        let end = at + text.len().min(ROOM - at);
        self.bytes[at..end].copy_from_slice(&text[..end - at]);
        self.len = end;
    }
}

impl fmt::Write for Answer {
    fn write_str(&mut self, s: &str) -> fmt::Result {
        self.push(s.as_bytes());
        Ok(())
    }
}

// A number without its sign.
//
// Ruled out: 0 for -1; another number for the least.
pub fn magnitude(x: i64) -> u64
    ensures { result ≡ nat_abs x }
{
    x.unsigned_abs()
}
