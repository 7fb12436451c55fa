// A slide over a recording that is read buffer by buffer: what a buffer comes to, and whether the recording is read on. A program that
// repeats the step writes the bytes that are slid, keeps those after them, and decides nothing.
#![tactic(auto)]

ghost use Rattle.std.specs.Prelude.{◌≤◌, length};
ghost use Rattle.wire.specs.Limits.{longest};
ghost use Rattle.slide_steps.specs.Steps.{table_size};
ghost use Rattle.slide_walks.specs.Turns.{Turns};

use results::End;
use walks::reads_on;

// What a buffer comes to. Its first bytes, so many, are slid: they are the next bytes of the output.
#[derive(Clone, Copy)]
pub enum Turn {
    // The recording is read on, after the bytes that are left of the buffer.
    On(usize),
    // The recording is not read on, and why.
    Ended(usize, End),
}

// Slides the first `count` bytes of a buffer: those that were kept and the portion that was read after them. A buffer that is not full is
// the recording's last.
//
// Ruled out: reading on after a refused frame; a byte changed that is not among the first that are slid.
pub fn slide_turn(buf: &mut [u8], count: usize, by: u64, table: &mut [u8]) -> Turn
    requires { (count ≤ length buf.old) × (length buf.old ≤ longest) × (table_size ≤ length table.old) }
    ensures { Turns buf.old count by result buf.new }
{
    match slide_steps::slide_step(&mut buf[0..count], by, table) {
        Ok(slid) => {
            let is_last = count < wire::LONGEST;
            if reads_on(is_last, slid.end) {
                return Turn::On(slid.used);
            }
            Turn::Ended(slid.used, slid.end)
        }
        Err(refusal) => Turn::Ended(0, End::Refused(refusal)),
    }
}
