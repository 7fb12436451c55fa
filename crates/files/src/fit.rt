// Whether a file that exists could be what a command writes: only then is it replaced or removed without being asked to.
ghost use Rattle.std.specs.Prelude.{◌≡◌};
ghost use Rattle.wire.specs.Same.{same_bytes};
ghost use Rattle.files.specs.Fits.{begins_table, index_fit, table_fit, fit_of, allowed_by};

use troubles::Trouble;
use words::line::front;

// What a command writes.
#[derive(Clone, Copy)]
pub enum Kind {
    Index,
    Table,
    // A packet or a frame.
    Packet,
}

// Whether bytes are these.
fn is_same(bytes: &[u8], other: &[u8]) -> bool
    ensures { result ≡ same_bytes bytes.now other.now }
{
    bytes == other
}

// Whether a table that has records begins so: with that of a message or of a bundle.
fn begins_table(head: &[u8]) -> bool
    ensures { result ≡ begins_table head.now }
{
    let four = front(head, 4);
    is_same(&[b'/', 0, 0, 0], four) || is_same(&[b'#', 0, 0, 0], four)
}

// Whether a file of `size` bytes, which begins with these, could be an index.
#[tactic(auto, unfolding(crate::specs::Fits::index_fit))]
fn index_fit(size: u64, head: &[u8]) -> Result<(), Trouble>
    ensures { result ≡ index_fit size head.now }
{
    if size % 16 != 0 {
        return Err(Trouble::IndexLength);
    }
    if size == 0 || is_same(&[0, 0, 0, 0, 0, 0, 0, 0], front(head, 8)) {
        return Ok(());
    }
    Err(Trouble::IndexFront)
}

// The same of a table.
#[tactic(auto, unfolding(crate::specs::Fits::table_fit))]
fn table_fit(size: u64, head: &[u8]) -> Result<(), Trouble>
    ensures { result ≡ table_fit size head.now }
{
    if size % 20 != 0 {
        return Err(Trouble::TableLength);
    }
    if size == 0 || begins_table(head) {
        return Ok(());
    }
    Err(Trouble::TableFront)
}

// Whether a file of `size` bytes, which begins with these, could be what a command writes.
//
// Ruled out: a recording taken for an index; a file whose length is no multiple of 20 taken for a table; any file taken for a packet.
pub fn fit_of(kind: Kind, size: u64, head: &[u8]) -> Result<(), Trouble>
    ensures { result ≡ fit_of kind size head.now }
{
    match kind {
        Kind::Index => index_fit(size, head),
        Kind::Table => table_fit(size, head),
        Kind::Packet => Err(Trouble::Exists),
    }
}

// Whether such a file may be replaced or removed: it could be what the command writes, or --replace was given.
//
// Ruled out: a file that could not be one, without --replace; one that could, kept.
pub fn allowed_by(is_replacing: bool, fit: Result<(), Trouble>) -> Result<(), Trouble>
    ensures { result ≡ allowed_by is_replacing fit }
{
    if is_replacing {
        return Ok(());
    }
    fit
}
