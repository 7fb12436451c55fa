// The line for a record that is looked at.
ghost use Rattle.std.specs.Prelude.{◌≡◌, [], ◌∷◌, nat_abs};
ghost use Rattle.telling.specs.Forms.{Says, filled_in};
ghost use Rattle.telling.specs.Shown.{shown_as, sign_words, value_line, record_line, started_line, start_line};

use crate::form::fill_in;
use crate::refusals::tell_refused;
use node::record::{END, capacity_of, field_at, kind_at};
use refusal::Refusal;
use values::look::{look, start_of};
use values::value::{OscTime, OscType};
use words::written::magnitude;

// A record of a table, whose line is to be put: its place, the letter of its kind, and where it ends.
#[derive(Clone, Copy)]
struct Shown {
    index: u64,
    kind: u8,
    end: u64,
}

impl Shown {
    // Puts its line, with one number.
    fn one(self, form: &[u8], x: u64, out: &mut [u8]) -> usize
        ensures { Says (filled_in (self.kind ∷ []) (self.index ∷ x ∷ self.end ∷ []) form.now) out.new result }
    {
        fill_in(form, &[self.index, x, self.end], &[self.kind], out)
    }

    // The same with two.
    fn two(self, form: &[u8], x: u64, y: u64, out: &mut [u8]) -> usize
        ensures { Says (filled_in (self.kind ∷ []) (self.index ∷ x ∷ y ∷ self.end ∷ []) form.now) out.new result }
    {
        fill_in(form, &[self.index, x, y, self.end], &[self.kind], out)
    }

    // Where a text or the like stands.
    fn range(self, offset: u32, length: u32, out: &mut [u8]) -> usize
        ensures { Says (shown_as self.index self.kind self.end " offset % length %" (offset ∷ length ∷ [])) out.new result }
    {
        self.two(
            b"record %: ~ offset % length %, end %\n",
            offset as u64,
            length as u64,
            out,
        )
    }

    // A time.
    fn time(self, t: OscTime, out: &mut [u8]) -> usize
        ensures { Says (shown_as self.index self.kind self.end " seconds % fraction %" (t.seconds ∷ t.fractional ∷ [])) out.new result }
    {
        self.two(
            b"record %: ~ seconds % fraction %, end %\n",
            t.seconds as u64,
            t.fractional as u64,
            out,
        )
    }

    // A number with its sign.
    fn signed(self, x: i64, out: &mut [u8]) -> usize
        ensures { Says (shown_as self.index self.kind self.end (sign_words x) (nat_abs x ∷ [])) out.new result }
    {
        if x < 0 {
            return self.one(b"record %: ~ -%, end %\n", magnitude(x), out);
        }
        self.one(b"record %: ~ %, end %\n", magnitude(x), out)
    }

    // Four bytes.
    fn four(self, a: u8, b: u8, c: u8, d: u8, out: &mut [u8]) -> usize
        ensures { Says (shown_as self.index self.kind self.end " % % % %" (a ∷ b ∷ c ∷ d ∷ [])) out.new result }
    {
        fill_in(
            b"record %: ~ % % % %, end %\n",
            &[self.index, a as u64, b as u64, c as u64, d as u64, self.end],
            &[self.kind],
            out,
        )
    }

    // Puts its line, with what a value holds.
    //
    // Ruled out: the seconds of a time in the place of its fraction; the offset of a text alone.
    fn tell(self, value: OscType, out: &mut [u8]) -> usize
        ensures { Says (value_line self.index self.kind self.end value) out.new result }
    {
        match value {
            OscType::Message { offset, length } => self.range(offset, length, out),
            OscType::Bundle(t) => self.time(t, out),
            OscType::Int(x) => self.signed(x as i64, out),
            OscType::Float { bits, value: _ } => self.one(
                b"record %: ~ bits 0x$, end %\n",
                bits as u64,
                out,
            ),
            OscType::String { offset, length } => self.range(offset, length, out),
            OscType::Blob { offset, length } => self.range(offset, length, out),
            OscType::Time(t) => self.time(t, out),
            OscType::Long(x) => self.signed(x, out),
            OscType::Double { bits, value: _ } => self.two(
                b"record %: ~ bits 0x$$, end %\n",
                bits / 0x1_0000_0000,
                bits % 0x1_0000_0000,
                out,
            ),
            OscType::Char(x) => self.one(b"record %: ~ %, end %\n", x as u64, out),
            OscType::Color(c) => self.four(c.red, c.green, c.blue, c.alpha, out),
            OscType::Midi(m) => self.four(m.port, m.status, m.data1, m.data2, out),
            _ => fill_in(
                b"record %: ~, end %\n",
                &[self.index, self.end],
                &[self.kind],
                out,
            ),
        }
    }
}

// Puts the line for record `index` of a table at the front of `out`, and answers how long it is: its kind, what it holds and its end.
//
// Ruled out: a value for a record that is refused; the end of another record.
pub fn tell_record(table: &[u8], index: usize, out: &mut [u8]) -> usize
    ensures { Says (record_line table.now index) out.new result }
{
    if capacity_of(table) <= index {
        return tell_refused(Refusal::BadTable, out);
    }
    match look(table, index) {
        Ok(value) => {
            let shown = Shown {
                index: index as u64,
                kind: kind_at(table, index),
                end: field_at(table, index, END) as u64,
            };
            shown.tell(value, out)
        }
        Err(refusal) => tell_refused(refusal, out),
    }
}

// Puts the line for what `start_of` answers.
fn tell_started(started: Result<u32, Refusal>, out: &mut [u8]) -> usize
    ensures { Says (started_line started) out.new result }
{
    match started {
        Ok(start) => fill_in(b"start %\n", &[start as u64], b"", out),
        Err(refusal) => tell_refused(refusal, out),
    }
}

// Puts the line for where the data of record `index` begins at the front of `out`, and answers how long it is: 0 where `tell_record` says a
// refusal.
//
// Ruled out: the end of the record in its place; a second line after a refusal.
pub fn tell_start(table: &[u8], index: usize, out: &mut [u8]) -> usize
    ensures { Says (start_line table.now index) out.new result }
{
    match look(table, index) {
        Ok(_) => tell_started(start_of(table, index), out),
        Err(_) => 0,
    }
}
