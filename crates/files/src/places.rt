// Whether an output may take its name.
ghost use Rattle.std.specs.Prelude.{IfErr};
ghost use Rattle.files.specs.Told.{OfPlace};

use crate::fail;
use crate::fit::{Kind, allowed_by, fit_of};
use crate::names::open_update;
use crate::pieces::{length_of, read_on};
use std::fs::File;
use std::io::ErrorKind;
use troubles::Trouble;
use words::line::front;

// How a name is that a new file may take.
#[derive(Clone, Copy)]
pub enum Place {
    // Nothing has it.
    Free,
    // A file has it that may be replaced.
    Held,
}

// Why a file was not begun, written or removed.
#[derive(Clone, Copy)]
pub enum Refused {
    // The name leaves no room in a path for what is put after it.
    LongName,
    // What has the name is not a file that can be replaced.
    NoFile,
    // It is a file of so many bytes that may not be replaced, and why.
    Unfit(Trouble, u64),
    // A call of the system failed, and it was said why.
    Failed,
}

// The place of an open file. A device cannot be synced, so that no device's name is taken.
fn place_at(file: &File, path: &[u8], kind: Kind, is_replacing: bool) -> Result<Place, Refused>
    ensures { IfErr result OfPlace }
{
    if file.sync_all().is_err() {
        return Err(Refused::NoFile);
    }
    let size = length_of(file);
    let mut head = [0u8; 8];
    let n = read_on(file, path, &mut head, 0).map_err(|_| Refused::Failed)?;
    allowed_by(is_replacing, fit_of(kind, size, front(&head, n)))
        .map(|()| Place::Held)
        .map_err(|trouble| Refused::Unfit(trouble, size))
}

// Whether a new file may take the name: nothing has it, or a file that can be written and may be replaced. Where the system does not tell,
// it is said why.
pub fn place_of(
    rt: &HostRuntime,
    path: &[u8],
    kind: Kind,
    is_replacing: bool,
) -> Result<Place, Refused>
    ensures { IfErr result OfPlace }
{
    match open_update(rt, path) {
        Ok(file) => place_at(&file, path, kind, is_replacing),
        Err(error) => {
            if error.kind() == ErrorKind::NotFound {
                return Ok(Place::Free);
            }
            fail(path, &error);
            Err(Refused::Failed)
        }
    }
}
