// The line for trouble with a word or a file.
ghost use Rattle.std.specs.Prelude.{◌≡◌};
ghost use Rattle.words.specs.Ascii.{ascii};
ghost use Rattle.telling.specs.Forms.{Says};
ghost use Rattle.telling.specs.Troubles.{trouble_form, trouble_line};

use crate::form::fill_in;
use troubles::Trouble;

// The form of a trouble.
//
// Ruled out: the form of another trouble.
fn form_of(trouble: Trouble) -> &'static [u8]
    ensures { result.now ≡ ascii (trouble_form trouble) }
{
    match trouble {
        Trouble::NoCommand =>
            b"osc: the first word is not decode, encode, look, index, check, cue, time, shift, help or --version: ~\n",
        Trouble::DecodeWords =>
            b"osc: decode takes udp|tcp|tcp-vec|tcp2|tcp2-vec INPUT TABLE [--depth N] [--records N] [--replace]\n",
        Trouble::EncodeWords => b"osc: encode takes udp|tcp|tcp2 TABLE SOURCE OUTPUT [--replace]\n",
        Trouble::LookWords => b"osc: look takes TABLE INDEX [--rule a|b]\n",
        Trouble::NoFraming => b"osc: not udp, tcp, tcp-vec, tcp2 or tcp2-vec: ~\n",
        Trouble::OnePacket => b"osc: encode writes one packet: udp, tcp or tcp2, not ~\n",
        Trouble::NoOption => b"osc: not --depth or --records: ~\n",
        Trouble::Twice => b"osc: given twice: ~\n",
        Trouble::NoNumber => b"osc: not a number of at most nine digits: ~\n",
        Trouble::ManyRecords => b"osc: more than 65535 for --records: ~\n",
        Trouble::NoName => b"osc: the name of a file is empty\n",
        Trouble::LongName => b"osc: ~: the name of the file is too long\n",
        Trouble::NoFile => b"osc: ~: not a file that can be replaced\n",
        Trouble::OneFile => b"osc: ~: the output is the same file, or cannot be told from it\n",
        Trouble::TooLarge => b"osc: ~: the file is too large: it has at least % bytes\n",
        Trouble::NoTable => b"osc: ~: a table has a multiple of 20 bytes, and this has % bytes\n",
        Trouble::IndexWords => b"osc: index takes RECORDING INDEX [--replace]\n",
        Trouble::CheckWords => b"osc: check takes RECORDING INDEX\n",
        Trouble::CueWords => b"osc: cue takes RECORDING INDEX K TABLE PACKET [--replace]\n",
        Trouble::Shorter => b"osc: ~: the file became shorter while it was read\n",
        Trouble::NoReplace => b"osc: only decode, encode, index, cue and shift take --replace\n",
        Trouble::IndexLength =>
            b"osc: ~: this file is not an index (% bytes, not a multiple of 16); nothing was changed. \
To replace it anyway, add --replace.\n",
        Trouble::IndexFront =>
            b"osc: ~: this file is not an index (8 bytes at offset 0 are not zero); nothing was changed. \
To replace it anyway, add --replace.\n",
        Trouble::TableLength =>
            b"osc: ~: this file is not a table (% bytes, not a multiple of 20); nothing was changed. \
To replace it anyway, add --replace.\n",
        Trouble::TableFront =>
            b"osc: ~: this file is not a table (no / or # and three zeros at offset 0); nothing was changed. \
To replace it anyway, add --replace.\n",
        Trouble::Exists =>
            b"osc: ~: this file exists; nothing was changed. To replace it, add --replace.\n",
        Trouble::TwoNames => b"osc: ~: the other output has the same name\n",
        Trouble::TimeWords => b"osc: time takes a|b TAG, or a|b SECONDS\n",
        Trouble::NoRule => b"osc: the rule is a or b, not ~\n",
        Trouble::NoTime =>
            b"osc: neither a tag of 16 hexadecimal digits nor seconds, with at most 9 digits after a dot: ~\n",
        Trouble::ShiftWords => b"osc: shift takes RECORDING OUT BY [--replace]\n",
        Trouble::NoAmount =>
            b"osc: BY is neither seconds, with at most 9 digits after a dot, nor hex: and 16 hexadecimal digits: ~\n",
    }
}

// Puts the line for a trouble with a word, or with a file and a number of its bytes, at the front of `out`, and answers how long it is.
// What has no room is left out.
//
// Ruled out: the words of another trouble; another number.
pub fn tell_trouble(trouble: Trouble, number: u64, word: &[u8], out: &mut [u8]) -> usize
    ensures { Says (trouble_line trouble number word.now) out.new result }
{
    fill_in(form_of(trouble), &[number], word, out)
}
