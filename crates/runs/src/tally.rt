// How often each answer was met, and saying it.
ghost use Rattle.std.specs.Prelude.{◌≡◌, ◌≤◌, length};

use crate::said::say;
use words::line::{place_of, word};

// Counts one more at a place of a tally, where it has that place.
pub fn add(tally: &mut [u64], at: usize)
    ensures { length tally.new ≡ length tally.old }
{
    if let Some(count) = tally.get_mut(at) {
        *count = count.wrapping_add(1);
    }
}

// Says an answer: the first ones have names, and those after them are refusals by their numbers, from 0 on.
pub fn say_answer(names: &[u8], answer: usize) {
    let named = place_of(names, b"");
    if answer < named {
        io::write_all(1, word(names, answer));
    } else {
        say(b"refused ", (answer - named) as u64);
    }
}

// Says how often an answer was met, if it was.
fn say_times(names: &[u8], answer: usize, times: u64) {
    if 0 < times {
        say(b", ", times);
        io::write_all(1, b" ");
        say_answer(names, answer);
    }
}

// Says how often each answer was met, and ends the line.
pub fn say_met(names: &[u8], tally: &[u64]) {
    for (answer, times) in tally.iter().enumerate() {
        say_times(names, answer, *times);
    }
    io::write_all(1, b"\n");
}
