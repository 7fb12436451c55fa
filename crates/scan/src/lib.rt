// The tags and their data without records: what the first reading finds out. Linear, with no stack for arrays.
#![tactic(auto)]

ghost use Rattle.std.specs.Prelude.{◌≡◌, ◌+◌, ◌-◌, ◌≤◌, length};
ghost use Rattle.wire.specs.Limits.{longest};
ghost use Rattle.text.specs.Text.{non_zero};
ghost use Rattle.argument.specs.Argument.{having, read_arg};
ghost use Rattle.argument.specs.Results.{Given};
ghost use Rattle.argument.specs.CodeParts.{between, padding_from};
ghost use Rattle.scan.specs.CodeScans.{used_of, scan, back, bracket, brackets};

use argument::read_checked;
use node::record::Item;
use node::tags::{ARRAY, Class, Sort, sort_of};
use refusal::{Fault, Field};
use text::dirty_in;

// What tags take: so many bytes of data, and so many bytes of its padding that are not zero.
#[derive(Clone, Copy, Debug, PartialEq, Eq)]
pub struct ScannedArgs {
    pub used: usize,
    pub dirty: usize,
}

// What the tags from some place on keep.
#[derive(Clone, Copy, Debug, PartialEq, Eq)]
pub enum Back {
    // They close every array that they open, and `closed` more. They give `count` records; with what those `closed` contain yet, arrays
    // are nested `depth` deep.
    Uncut {
        closed: usize,
        count: usize,
        depth: usize,
    },
    // An array that they open stays open. The last such '[' ends the first `first` of them; those after it give `count` records, in
    // which arrays are nested `depth` deep.
    Cut {
        first: usize,
        count: usize,
        depth: usize,
    },
}

// `n` bytes, where the data at `pos` has them.
fn pass_bytes(input: &[u8], n: usize, pos: usize) -> Result<ScannedArgs, Fault>
    ensures { (class : Class) (item : Item) → padding_from class item n ≡ n
        → result ≡ used_of class input.now (having n input.now (Fault.Short Field.Data pos) (Given item n)) }
{
    if input.len() < n {
        return Err(Fault::Short {
            field: Field::Data,
            at: pos,
        });
    }
    Ok(ScannedArgs { used: n, dirty: 0 })
}

// How many bytes of the padding of one argument are not zero; it takes the first `used` bytes of `input`.
fn dirty_of(class: Class, item: Item, input: &[u8], used: usize) -> usize
    requires { (padding_from class item used ≤ used) × (used - padding_from class item used ≤ 3) × (used ≤ length input.now) }
    ensures { result ≡ non_zero (between (padding_from class item used) used input.now) }
{
    match class {
        Class::Text => {
            let end = item.b as usize + 1;
            dirty_in(&input[end..used])
        }
        Class::Blob => {
            let end = 4 + item.b as usize;
            dirty_in(&input[end..used])
        }
        _ => 0,
    }
}

// How many bytes of data one argument takes, and its dirty padding. Its numbers don't matter here, so a plain class reads none, and the
// offset base is 0. A scalar has no padding; since `read_checked` is called in two places, it is not compiled into the loop over the tags,
// which took twice as long with it.
fn pass_arg(tag: u8, class: Class, input: &[u8], pos: usize) -> Result<ScannedArgs, Fault>
    requires { pos + length input.now ≤ longest }
    ensures { result ≡ used_of class input.now (read_arg tag class 0 input.now pos) }
{
    match class {
        Class::Four => pass_bytes(input, 4, pos),
        Class::Eight => pass_bytes(input, 8, pos),
        Class::Bare => Ok(ScannedArgs { used: 0, dirty: 0 }),
        Class::Scalar => {
            let given = read_checked(tag, class, input, 0, pos)?;
            Ok(ScannedArgs {
                used: given.used,
                dirty: 0,
            })
        }
        _ => {
            let given = read_checked(tag, class, input, 0, pos)?;
            Ok(ScannedArgs {
                used: given.used,
                dirty: dirty_of(class, given.item, input, given.used),
            })
        }
    }
}

// Forward: whether the tags and their data are accepted, how many bytes they take, and how many of their padding are not zero. Only the
// number of open arrays is kept.
//
// Ruled out: `]` with no array open passed over; padding counted from where an earlier argument stands; the dirt of the last text alone.
pub fn scan_args(tags: &[u8], input: &[u8], pos: usize) -> Result<ScannedArgs, Fault>
    requires { pos + length input.now ≤ longest }
    ensures { result ≡ scan tags.now input.now pos 0 }
{
    let mut rest = input;
    let mut at = pos;
    let mut waiting: usize = 0;
    let mut dirt: usize = 0;
    for &tag in tags {
        match sort_of(tag) {
            Sort::Opens => waiting += 1,
            Sort::Closes => {
                if waiting == 0 {
                    return Err(Fault::NotOpen);
                }
                waiting -= 1;
            }
            Sort::Leaf(class) => {
                let passed = pass_arg(tag, class, rest, at)?;
                rest = &rest[passed.used..];
                at += passed.used;
                dirt += passed.dirty;
            }
        }
    }
    Ok(ScannedArgs {
        used: at - pos,
        dirty: dirt,
    })
}

// Whether a tag opens or closes an array.
fn is_bracket(tag: u8) -> bool
    ensures { result ≡ bracket tag }
{
    matches!(tag, ARRAY | b']')
}

// Whether one of the tags is a bracket. With no early exit, a compiled step takes many of them: `any` took nine times as long.
fn any_bracket(tags: &[u8]) -> bool
    ensures { result ≡ brackets tags.now }
{
    let mut any = false;
    for tag in tags {
        any |= is_bracket(*tag);
    }
    any
}

// Backward, tags only: where the last '[' stands that is never closed, how many records follow, and how deep their arrays are nested.
// A '[' that is closed stands as deep as there are arrays yet to be opened.
fn walk_back(tags: &[u8]) -> Back
    ensures { result ≡ back tags.now }
{
    let mut closed: usize = 0;
    let mut count: usize = 0;
    let mut depth: usize = 0;
    for at in (0..tags.len()).rev() {
        match sort_of(tags[at]) {
            Sort::Opens => {
                if closed == 0 {
                    let first = at + 1;
                    return Back::Cut {
                        first,
                        count,
                        depth,
                    };
                }
                depth = depth.max(closed);
                closed -= 1;
                count += 1;
            }
            Sort::Closes => closed += 1,
            Sort::Leaf(_) => count += 1,
        }
    }
    Back::Uncut {
        closed,
        count,
        depth,
    }
}

// The same. Where no tag is a bracket, each one is a record, and none is looked at by itself.
//
// Ruled out: an array that stays open answered as closed; arrays that stand side by side answered as nested.
pub fn look_back(tags: &[u8]) -> Back
    ensures { result ≡ back tags.now }
{
    if any_bracket(tags) {
        return walk_back(tags);
    }
    Back::Uncut {
        closed: 0,
        count: tags.len(),
        depth: 0,
    }
}
