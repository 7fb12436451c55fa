// The cue index of a recording: the check of a part of it, and whether there is the cue that is asked for.
ghost use Rattle.std.specs.Prelude.{◌≤◌};
ghost use Rattle.cues.specs.Cues.{longest_recording};
ghost use Rattle.outcomes.specs.Cued.{ChecksPart, JumpTold};

use crate::Told;
use cues::compare_from;
use refusal::Refusal;
use results::IndexDiffers;
use telling::{tell_differs, tell_encoded};

// Checks a part of an index against the one written afresh, where `before` records stand before it.
//
// Ruled out: the number of a record in its part told as that in the index; a part of a record after the last accepted.
pub fn check_part(before: usize, fresh: &[u8], given: &[u8]) -> Result<usize, IndexDiffers>
    requires { before ≤ longest_recording }
    ensures { ChecksPart before fresh.now given.now result }
{
    compare_from(before, fresh, given)
}

// What a check of the index lets cue `k` be: it is there where the index fits and has so many records; else the line is put into `line`.
//
// Ruled out: a cue of an index that differs; cue N of an index of N records.
pub fn cue_told(checked: Result<usize, IndexDiffers>, k: u32, line: &mut [u8]) -> Result<u32, Told>
    ensures { JumpTold checked k line.new result }
{
    match checked {
        Ok(records) => {
            if (k as usize) < records {
                return Ok(k);
            }
            let n = tell_encoded(Err(Refusal::BadTable), line);
            Err(Told {
                is_kept: false,
                bytes: 0,
                line: n,
            })
        }
        Err(differs) => {
            let n = tell_differs(differs.at, line);
            Err(Told {
                is_kept: false,
                bytes: 0,
                line: n,
            })
        }
    }
}
