// The line for a cue index, one that was written and one that was checked, and for a recording that was shifted. All end alike.
ghost use Rattle.std.specs.Prelude.{◌≡◌};
ghost use Rattle.words.specs.Ascii.{ascii};
ghost use Rattle.telling.specs.Forms.{Says, filled_in};
ghost use Rattle.telling.specs.Indexes.{written_words, fits_words, end_form, end_words, index_line, differs_line, checked_line};
ghost use Rattle.telling.specs.Indexes.{Tellable, progress_line, shift_form, shift_line};

use crate::form::fill_in;
use crate::refusals::{tell_numbered, tell_stopped};
use refusal::moved_refusal;
use results::{End, INDEX_DIFFERS, IndexDiffers};

// The form of the line for an index that was written and ends so.
fn index_form(end: End) -> &'static [u8]
    ensures { result.now ≡ ascii (end_form written_words end) }
{
    match end {
        End::Whole => b"index: % records, whole\n",
        End::Waiting => b"index: % records, stopped at %: waiting\n",
        End::Refused(_) => b"index: % records, stopped at %: ~\n",
    }
}

// The same of one that fits.
fn fits_form(end: End) -> &'static [u8]
    ensures { result.now ≡ ascii (end_form fits_words end) }
{
    match end {
        End::Whole => b"index fits: % records, whole\n",
        End::Waiting => b"index fits: % records, stopped at %: waiting\n",
        End::Refused(_) => b"index fits: % records, stopped at %: ~\n",
    }
}

// The same of a shift.
fn shift_form(end: End) -> &'static [u8]
    ensures { result.now ≡ ascii (shift_form end) }
{
    match end {
        End::Whole => b"shift: % bytes, whole\n",
        End::Waiting => b"shift: stopped at %: waiting\n",
        End::Refused(_) => b"shift: stopped at %: ~\n",
    }
}

// Puts a line of this form with the words of the refusal that ends it. The refusal has its field's offset from the frame on, which stands
// at `at`.
fn tell_ended(form: &[u8], numbers: &[u64], at: u64, end: End, out: &mut [u8]) -> usize
    requires { Tellable at end }
    ensures { Says (filled_in (end_words at end) numbers.now form.now) out.new result }
{
    match end {
        End::Whole => fill_in(form, numbers, b"", out),
        End::Waiting => fill_in(form, numbers, b"", out),
        End::Refused(refusal) => tell_stopped(
            form,
            numbers,
            moved_refusal(at as usize, refusal),
            out,
        ),
    }
}

// Puts the line for an index that was written at the front of `out`, and answers how long it is.
//
// Ruled out: an index that stopped told as a whole one; a field that was short told by its offset in the frame.
pub fn tell_index(records: usize, at: u64, end: End, out: &mut [u8]) -> usize
    requires { Tellable at end }
    ensures { Says (index_line records at end) out.new result }
{
    tell_ended(index_form(end), &[records as u64, at], at, end, out)
}

// The same for an index that differs, by the first record that does.
//
// Ruled out: the number of the refusal in the place of the record's; 1 in the place of 25.
pub fn tell_differs(first: usize, out: &mut [u8]) -> usize
    ensures { Says (differs_line first) out.new result }
{
    tell_numbered(INDEX_DIFFERS, first as u64, out)
}

// The same for an index that was checked, against a recording whose own ends so.
//
// Ruled out: an index that differs told as one that fits; a recording that stopped told as a whole one.
pub fn tell_checked(
    checked: Result<usize, IndexDiffers>,
    at: u64,
    end: End,
    out: &mut [u8],
) -> usize
    requires { Tellable at end }
    ensures { Says (checked_line checked at end) out.new result }
{
    match checked {
        Ok(records) => tell_ended(fits_form(end), &[records as u64, at], at, end, out),
        Err(differs) => tell_differs(differs.at, out),
    }
}

// The same for how much of a recording is read so far.
pub fn tell_progress(mebibytes: u64, out: &mut [u8]) -> usize
    ensures { Says (progress_line mebibytes) out.new result }
{
    fill_in(b"osc: % MiB read\n", &[mebibytes], b"", out)
}

// Puts the line for a recording that was shifted up to an offset, and why no further.
//
// Ruled out: a shift that stopped told as a whole one; a field that was short told by its offset in the frame.
pub fn tell_shift(at: u64, end: End, out: &mut [u8]) -> usize
    requires { Tellable at end }
    ensures { Says (shift_line at end) out.new result }
{
    tell_ended(shift_form(end), &[at], at, end, out)
}
