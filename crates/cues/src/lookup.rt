// A cue, looked up by its number in an index.
ghost use Rattle.std.specs.Prelude.{◌≡◌};
ghost use Rattle.cues.specs.Cues.{cue_in};

use crate::index::ENTRY_SIZE;
use refusal::Refusal;
use results::CueAt;

// The numbers of record `k`, from 0. Whether they are of a frame that is there, a check says.
//
// Ruled out: numbers of a part of a record at the index's end; those of the record after it.
pub fn cue_at(index: &[u8], k: u64) -> Result<CueAt, Refusal>
    ensures { result ≡ cue_in index.now k }
{
    if k < (index.len() / ENTRY_SIZE) as u64 {
        let at = ENTRY_SIZE * k as usize;
        return Ok(CueAt {
            offset: wire::be_u64(index, at),
            size: wire::be_u32(index, at + 8),
            records: wire::be_u32(index, at + 12),
        });
    }
    Err(Refusal::BadTable)
}
