// The check of an index against the one that was written afresh.
ghost use Rattle.std.specs.Prelude.{◌≡◌, ◌*◌, ◌<◌, length, take, drop};
ghost use Rattle.cues.specs.Cues.{entry_size};
ghost use Rattle.cues.specs.Checks.{compared, numbered_from};

use crate::index::ENTRY_SIZE;
use results::IndexDiffers;

// Compares an index with the one that was written afresh.
//
// Ruled out: a differing record told one too late; a part of a record after the last accepted.
pub fn compare(fresh: &[u8], given: &[u8]) -> Result<usize, IndexDiffers>
    ensures { result ≡ compared fresh.now given.now }
{
    let count = fresh.len().max(given.len()).div_ceil(ENTRY_SIZE);
    for k in 0..count {
        if entry_at(fresh, k) != entry_at(given, k) {
            return Err(IndexDiffers { at: k });
        }
    }
    Ok(count)
}

// The same for a part of an index, before which `from` records stand: they count in the number.
//
// Ruled out: the number of a record in its part told as that in the index; a record that differs told as one that fits.
pub fn compare_from(from: usize, fresh: &[u8], given: &[u8]) -> Result<usize, IndexDiffers>
    requires { from < 0x8000_0000_0000_0000 }
    ensures { result ≡ numbered_from from (compared fresh.now given.now) }
{
    match compare(fresh, given) {
        Ok(k) => Ok(from + k),
        Err(differs) => Err(IndexDiffers {
            at: from + differs.at,
        }),
    }
}

// The bytes of record `k`, as many of them as there are.
fn entry_at(index: &[u8], k: usize) -> &[u8]
    ensures { result.now ≡ take entry_size (drop (entry_size * k) index.now) }
{
    let rest = index.get(k.saturating_mul(ENTRY_SIZE)..).unwrap_or(&[]);
    rest.get(..ENTRY_SIZE).unwrap_or(rest)
}
