// The arguments of a message, by the tags of its type text (decoder.rs, `read_osc_args` and `read_osc_arg`).
#![tactic(auto)]

mod records; // records.rt: the records of arguments whose arrays are all closed

ghost use Rattle.std.specs.Prelude.{◌≡◌, Ok, List, ℕ, ◌+◌, ◌≤◌, length};
ghost use Rattle.wire.specs.Limits.{longest};
ghost use Rattle.wire.specs.Wrote.{Wrote};
ghost use Rattle.node.specs.Forest.{size};
ghost use Rattle.node.specs.Records.{records_of};
ghost use Rattle.arguments.specs.Arguments.{read_args};
ghost use Rattle.argument.specs.CodeParts.{StandsAt, dirt_of};
ghost use Rattle.arguments.specs.CodeReadings.{measured, no_dirt, keeping, kept_of, ArgsAccepted, ArgsRoom};
ghost use Rattle.arguments.specs.CodeReadings.{CutAfter, Scans, ScanAccepts};
ghost use Rattle.scan.specs.CodeScans.{back};

use refusal::Fault;
use scan::Back;

// What the first reading of the arguments finds: how many records the kept arguments take, how deep arrays are nested in them, how many bytes
// of data were read, and how many bytes of the kept ones' padding are not zero.
#[derive(Clone, Copy, Debug, PartialEq, Eq)]
pub struct MeasuredArgs {
    pub count: usize,
    pub depth: usize,
    pub used: usize,
    pub dirty: usize,
}

// First reading of the arguments: nothing is written. Their offsets don't matter here, so it takes no `base`. Many messages have none, and
// these need no scan.
//
// Ruled out: an array that is lost counted in the depth, or its dirt; padding counted from the arguments, and not from the frame.
pub fn measure_osc_args(tags: &[u8], input: &[u8], pos: usize) -> Result<MeasuredArgs, Fault>
    requires { pos + length input.now ≤ longest }
    ensures { (base : ℕ) (msg : List ℕ) → StandsAt msg (base + pos) input.now
        → result ≡ measured (dirt_of base msg) (read_args base tags.now input.now pos) }
{
    if tags.len() == 0 {
        return Ok(MeasuredArgs {
            count: 0,
            depth: 0,
            used: 0,
            dirty: 0,
        });
    }
    let scanned = scan::scan_args(tags, input, pos)?;
    let dirt = dirty_kept(tags, input, pos, scanned.dirty);
    Ok(keep(tags, scanned.used, dirt))
}

// The same where their dirt does not matter, and is answered as 0: in the second reading of a bundle it is known.
//
// Ruled out: the bytes read for the records; an array that is lost counted among the records.
pub fn count_osc_args(tags: &[u8], input: &[u8], pos: usize) -> Result<MeasuredArgs, Fault>
    requires { pos + length input.now ≤ longest }
    ensures { (base : ℕ) → result ≡ measured no_dirt (read_args base tags.now input.now pos) }
{
    let scanned = scan::scan_args(tags, input, pos)?;
    Ok(keep(tags, scanned.used, 0))
}

// What tags keep that take `used` bytes, with so much dirt.
fn keep(tags: &[u8], used: usize, dirty: usize) -> MeasuredArgs
    ensures { Ok result ≡ keeping (back tags.now) used dirty }
{
    match scan::look_back(tags) {
        Back::Uncut {
            closed: _,
            count,
            depth,
        } => MeasuredArgs {
            count,
            depth,
            used,
            dirty,
        },
        Back::Cut {
            first: _,
            count: after,
            depth,
        } => MeasuredArgs {
            count: after,
            depth,
            used,
            dirty,
        },
    }
}

// How many records the kept arguments of an accepted message take: the tags alone tell it.
//
// Ruled out: a ']' counted too; the tags before an array that stays open counted with those in it.
pub fn count_accepted(tags: &[u8]) -> usize
    ensures { (base : ℕ) (l : List ℕ) (p : ℕ) → ArgsAccepted (read_args base tags.now l p)
        → result ≡ size (kept_of (read_args base tags.now l p)) }
{
    match scan::look_back(tags) {
        Back::Uncut {
            closed: _,
            count,
            depth: _,
        } => count,
        Back::Cut {
            first: _,
            count: after,
            depth: _,
        } => after,
    }
}

// The dirt of the arguments that are kept; all of them, lost ones too, have `all`. Where that is none, the tags need not be looked at.
fn dirty_kept(tags: &[u8], input: &[u8], pos: usize, all: usize) -> usize
    requires { (pos + length input.now ≤ longest) × Scans all tags.now input.now pos }
    ensures { (base : ℕ) (msg : List ℕ) → StandsAt msg (base + pos) input.now
        → result ≡ dirt_of base msg (kept_of (read_args base tags.now input.now pos)) }
{
    if all == 0 {
        return 0;
    }
    match scan::look_back(tags) {
        Back::Uncut {
            closed: _,
            count: _,
            depth: _,
        } => all,
        Back::Cut {
            first,
            count: _,
            depth: _,
        } => dirty_since(tags, first, input, pos),
    }
}

// The dirt of the arguments after the first `first` tags, which an unclosed array loses.
fn dirty_since(tags: &[u8], first: usize, input: &[u8], pos: usize) -> usize
    requires input_bound { pos + length input.now ≤ longest }
    requires cut_after { CutAfter first tags.now × ScanAccepts tags.now input.now pos }
    ensures { (base : ℕ) (msg : List ℕ) → StandsAt msg (base + pos) input.now
        → result ≡ dirt_of base msg (kept_of (read_args base tags.now input.now pos)) }
{
    match scan::scan_args(&tags[..first], input, pos) {
        Ok(lost) => {
            match scan::scan_args(&tags[first..], &input[lost.used..], pos + lost.used) {
                Ok(kept) => kept.dirty,
                Err(_) => 0,
            }
        }
        Err(_) => 0,
    }
}

// Second reading of the arguments, once they are measured: writes the records of the kept ones over the first bytes of `table`, the
// first with index `index`. Where arrays stay open, only the tags after the last unclosed '[' are kept, and the data of the
// earlier ones is passed over.
//
// Ruled out: the end of an array one short; the data of the lost tags read as that of the kept ones.
pub fn read_osc_args(
    tags: &[u8],
    input: &[u8],
    base: usize,
    pos: usize,
    table: &mut [u8],
    index: usize,
)
    requires input_bound { base + pos + length input.now ≤ longest }
    requires args_room { ArgsRoom (read_args base tags.now input.now pos) index table.old }
    ensures { Wrote (records_of index (kept_of (read_args base tags.now input.now pos)))
        table.old table.new }
{
    match scan::look_back(tags) {
        Back::Uncut {
            closed: _,
            count: _,
            depth: _,
        } => records::fill_whole(tags, input, base, pos, table, index),
        Back::Cut {
            first,
            count: _,
            depth: _,
        } => match scan::scan_args(&tags[..first], input, pos) {
            Ok(lost) => {
                records::fill_whole(
                    &tags[first..],
                    &input[lost.used..],
                    base,
                    pos + lost.used,
                    table,
                    index,
                )
            }
            Err(_) => {}
        },
    }
}
