// What the words of the program `osc` mean: decided here, under contracts. The program itself reads, writes and says.
#![tactic(auto)]

mod options; // options.rt: the options of decode

ghost use Rattle.std.specs.Prelude.{◌≡◌, ◌-◌};
ghost use Rattle.commands.specs.Words.{command_of, framing_of, number_of_word, may_replace, worded_as};
ghost use Rattle.commands.specs.Asked.{decode_with, encode_with, encode_asked, look_asked, index_asked, check_asked, cue_asked};

use edition::{Edition, Framing};
pub use options::{Options, options_of};
use troubles::{Blame, Trouble};
use words::lookup::beside;
use words::numeral::decimal;

// The first word.
#[derive(Clone, Copy)]
pub enum Command {
    Decode,
    Encode,
    Look,
    Index,
    Check,
    Cue,
    Time,
    Shift,
    Help,
    Version,
}

// How many words there are without --replace, and whether that is the last of them.
#[derive(Clone, Copy)]
pub struct Worded {
    pub count: usize,
    pub is_replacing: bool,
}

// How a packet is to be written.
#[derive(Clone, Copy)]
pub enum Writing {
    // Alone, as a UDP packet.
    Alone,
    // For a TCP stream, behind its length where the edition has one.
    Stream(Edition),
}

// What decode is asked.
#[derive(Clone, Copy)]
pub struct Decoding {
    pub framing: Framing,
    pub options: Options,
}

// The words of the commands.
const COMMANDS: [(&[u8], Command); 12] = [
    (b"decode", Command::Decode),
    (b"encode", Command::Encode),
    (b"look", Command::Look),
    (b"index", Command::Index),
    (b"check", Command::Check),
    (b"cue", Command::Cue),
    (b"time", Command::Time),
    (b"shift", Command::Shift),
    (b"help", Command::Help),
    (b"--help", Command::Help),
    (b"-h", Command::Help),
    (b"--version", Command::Version),
];

// The command that a word names.
//
// Ruled out: decode for the word encode; a command for a word that only begins with its name.
#[tactic(auto, unfolding(crate::specs::Words::command_of))]
pub fn command_of(word: &[u8]) -> Option<Command>
    ensures { result ≡ command_of word.now }
{
    beside(&COMMANDS, word)
}

// The place of the last of so many words.
//
// Ruled out: the number of the words; a place where there are none.
pub fn last_of(count: usize) -> usize
    ensures { result ≡ count - 1 }
{
    count.saturating_sub(1)
}

// Whether the last word of a command may be --replace: of a word that is no command that is said, and nothing of --replace.
fn may_replace(command: Option<Command>) -> bool
    ensures { result ≡ may_replace command }
{
    match command {
        Some(Command::Look | Command::Check | Command::Time) => false,
        Some(Command::Help | Command::Version) => false,
        _ => true,
    }
}

// The words of a command, of which there are `count`, by the last of them.
//
// Ruled out: --replace counted among the words; files replaced where it is not the last word, or by a command that writes none.
#[tactic(auto, using(words::proofs::Beside::equal_turned))]
pub fn words_of(command: Option<Command>, count: usize, last: &[u8]) -> Result<Worded, Blame>
    ensures { result ≡ worded_as command count last.now }
{
    if last != b"--replace".as_slice() {
        return Ok(Worded {
            count,
            is_replacing: false,
        });
    }
    if !may_replace(command) {
        return Err(Trouble::NoReplace.at(0));
    }
    Ok(Worded {
        count: last_of(count),
        is_replacing: true,
    })
}

// The words of the framings.
const FRAMINGS: [(&[u8], Framing); 5] = [
    (b"udp", Framing::Udp),
    (b"tcp", Framing::Tcp(Edition::Rosc)),
    (b"tcp-vec", Framing::TcpVec(Edition::Rosc)),
    (b"tcp2", Framing::Tcp(Edition::Standard)),
    (b"tcp2-vec", Framing::TcpVec(Edition::Standard)),
];

// The framing that a word names, in the same way.
//
// Ruled out: tcp for the word tcp-vec; edition 1 for the word tcp2; a framing for every word.
#[tactic(auto, unfolding(crate::specs::Words::framing_of))]
fn framing_of(word: &[u8]) -> Option<Framing>
    ensures { result ≡ framing_of word.now }
{
    beside(&FRAMINGS, word)
}

// The greatest number of nine digits.
const MOST: u64 = 999_999_999;

// The number of a word, where it has at most nine digits.
//
// Ruled out: a number for 1000000000; none for 999999999.
fn short_number(word: &[u8]) -> Option<u32>
    ensures { result ≡ number_of_word word.now }
{
    match decimal(word) {
        Some(x) if x <= MOST => Some(x as u32),
        _ => None,
    }
}

// What decode is asked: its options are read already, and word 2 is its framing.
//
// Ruled out: the options of before where a word is wrong; another framing than the word's.
pub fn decode_asked(chosen: Result<Options, Blame>, word: &[u8]) -> Result<Decoding, Blame>
    ensures { result ≡ decode_with chosen (framing_of word.now) }
{
    let options = chosen?;
    let framing = framing_of(word).ok_or(Trouble::NoFraming.at(2))?;
    Ok(Decoding { framing, options })
}

// What encode is asked, of whose words there are `count`, and whose word 2 is its framing.
//
// Ruled out: the packet alone for the word tcp; the edition of tcp for the word tcp2; a word too many.
pub fn encode_asked(count: usize, word: &[u8]) -> Result<Writing, Blame>
    ensures { result ≡ encode_asked count word.now }
{
    if count != 6 {
        return Err(Trouble::EncodeWords.at(0));
    }
    match framing_of(word) {
        Some(Framing::Udp) => Ok(Writing::Alone),
        Some(Framing::Tcp(edition)) => Ok(Writing::Stream(edition)),
        Some(Framing::TcpVec(_)) => Err(Trouble::OnePacket.at(2)),
        None => Err(Trouble::NoFraming.at(2)),
    }
}

// What look is asked, of whose words there are `count`, and whose word 3 is the index of the record.
//
// Ruled out: the record after the one that is asked for; a word too many.
pub fn look_asked(count: usize, word: &[u8]) -> Result<usize, Blame>
    ensures { result ≡ look_asked count word.now }
{
    if count != 4 {
        return Err(Trouble::LookWords.at(0));
    }
    let index = short_number(word).ok_or(Trouble::NoNumber.at(3))?;
    Ok(index as usize)
}

// What index is asked, of whose words, all of them names of files, there are `count`.
//
// Ruled out: a word too many.
pub fn index_asked(count: usize) -> Result<(), Blame>
    ensures { result ≡ index_asked count }
{
    if count != 4 {
        return Err(Trouble::IndexWords.at(0));
    }
    Ok(())
}

// The same of check.
pub fn check_asked(count: usize) -> Result<(), Blame>
    ensures { result ≡ check_asked count }
{
    if count != 4 {
        return Err(Trouble::CheckWords.at(0));
    }
    Ok(())
}

// What cue is asked, of whose words there are `count`, and whose word 4 is the number of the cue.
//
// Ruled out: the cue after the one that is asked for; a word too many.
pub fn cue_asked(count: usize, word: &[u8]) -> Result<u32, Blame>
    ensures { result ≡ cue_asked count word.now }
{
    if count != 7 {
        return Err(Trouble::CueWords.at(0));
    }
    short_number(word).ok_or(Trouble::NoNumber.at(4))
}
