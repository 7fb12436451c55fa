// Packets back to bytes (encoder.rs).
#![tactic(auto)]

ghost use Rattle.std.specs.Prelude.{◌≡◌};
ghost use Rattle.writers.specs.Osc.{write_element};
ghost use Rattle.encoder.specs.Outcome.{unframed, length_before, framed_by, Encodes, EncodesString};
ghost use Rattle.encoder.specs.CodePrepare.{Unsure, Writable, Writes, Prepares};
ghost use Rattle.encoder.specs.AfterNo.{AfterNo};

pub use edition::Edition;
use node::record::kind_at;
use node::tags::MESSAGE;
use refusal::{Fault, Refusal};
use strings::encode_string_into;
use survey::survey;
use table::{deeper_than, is_well_formed};
use utf8::is_utf8;
use wire::{DEEPEST, LONGEST, LONGEST_FRAMED, put_u32};
use writers::{LONGEST_ELEMENT, encode_packet};

// The longest text that is not too long with its 1 to 4 NULs.
const LONGEST_TEXT: usize = LONGEST - 4;

// Which refusal it is where the survey is not sure: 11, then 9, and otherwise the packet is too long.
fn after_no(table: &[u8], count: usize, source: &[u8]) -> Refusal
    requires { Unsure table.now count source.now }
    ensures { AfterNo table.now count source.now result }
{
    if !is_well_formed(table, count, source) {
        return Refusal::BadTable;
    }
    if deeper_than(table, count, DEEPEST) {
        return Refusal::TooDeep;
    }
    Refusal::TooLong
}

// Checks a table and measures its packet, before a byte of it is written: its length is at most 65,535. Where the survey is sure, there is
// nothing left to check.
fn prepare(table: &[u8], count: usize, source: &[u8]) -> Result<usize, Refusal>
    ensures { Prepares table.now count source.now result }
{
    let surveyed = survey(table, count, source);
    if surveyed <= LONGEST_ELEMENT {
        return Ok(surveyed - 4);
    }
    Err(after_no(table, count, source))
}

// Writes the packet of a table, which is n bytes long: 12 where the output is shorter.
fn encode_into(table: &[u8], source: &[u8], n: usize, out: &mut [u8]) -> Result<usize, Refusal>
    requires { Writable source.now table.now n }
    ensures { Writes (λ bs. bs) source.now table.now out.old
        (record { answer = result; out = out.new }) }
{
    if out.len() < n {
        return Err(Refusal::OutputShort);
    }
    Ok(encode_packet(table, 0, source, out))
}

// Writes the packet of a table, which is n bytes long, after its length: 1, then 12.
fn encode_framed(table: &[u8], source: &[u8], n: usize, out: &mut [u8]) -> Result<usize, Refusal>
    requires { Writable source.now table.now n }
    ensures { Writes write_element source.now table.now out.old
        (record { answer = result; out = out.new }) }
{
    if LONGEST_FRAMED < n {
        return Err(Refusal::TooLong);
    }
    if out.len() < 4 + n {
        return Err(Refusal::OutputShort);
    }
    put_u32(out, n as u32);
    let written = 4 + encode_packet(table, 0, source, &mut out[4..]);
    Ok(written)
}

// Writes the packet of a table of `count` records over the first bytes of `out`; its ranges are in `source`.
//
// Ruled out: an answer that counts bytes of which none is written; 12 where the packet is over 65,535 bytes, whatever the output's length.
pub fn encode(table: &[u8], count: usize, source: &[u8], out: &mut [u8]) -> Result<usize, Refusal>
    ensures { Encodes unframed table.now count source.now out.old
        (record { answer = result; out = out.new }) }
{
    let n = prepare(table, count, source)?;
    encode_into(table, source, n, out)
}

// The same for a stream: in edition 1 a length stands before a message and, as in the Rust, none before a bundle; in edition 2 one stands
// before both.
//
// Ruled out: in edition 1 a length before a bundle, in edition 2 a bundle without one; a length that counts its own four bytes.
pub fn encode_tcp(
    edition: Edition,
    table: &[u8],
    count: usize,
    source: &[u8],
    out: &mut [u8],
) -> Result<usize, Refusal>
    ensures { Encodes (framed_by edition) table.now count source.now out.old
        (record { answer = result; out = out.new }) }
{
    let n = prepare(table, count, source)?;
    if has_length(edition, kind_at(table, 0)) {
        encode_framed(table, source, n, out)
    } else {
        encode_into(table, source, n, out)
    }
}

// Whether a length stands before a packet of this kind.
fn has_length(edition: Edition, kind: u8) -> bool
    ensures { result ≡ length_before edition kind }
{
    match edition {
        Edition::Rosc => kind == MESSAGE,
        Edition::Standard => true,
    }
}

// Writes a text with its 1 to 4 NULs over the first bytes of `out`.
//
// Ruled out: a text of a multiple of 4 bytes with no NUL after it; 1 for a text that is not UTF-8, however long it is.
pub fn encode_string(text: &[u8], out: &mut [u8]) -> Result<usize, Refusal>
    ensures { EncodesString text.now out.old (record { answer = result; out = out.new }) }
{
    if !is_utf8(text) {
        return Err(Refusal::Unreadable(Fault::NotUtf8));
    }
    let n = text.len();
    if LONGEST_TEXT < n {
        return Err(Refusal::TooLong);
    }
    if out.len() < n + (4 - n % 4) {
        return Err(Refusal::OutputShort);
    }
    Ok(encode_string_into(text, out))
}
