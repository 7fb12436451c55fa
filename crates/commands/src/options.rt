// The options of decode.
ghost use Rattle.std.specs.Prelude.{◌≡◌, ◌<◌};
ghost use Rattle.commands.specs.Words.{number_of_word};
ghost use Rattle.commands.specs.Options.{depth_for, records_for, depth_set, records_set, chosen_by};
ghost use Rattle.commands.specs.Asked.{options_of};

use crate::short_number;
use node::record::MOST_RECORDS;
use troubles::{Blame, Trouble};
use wire::DEEPEST;

// What the options of decode say, each where it is given.
#[derive(Clone, Copy, Default)]
pub struct Options {
    pub depth: Option<usize>,
    pub records: Option<usize>,
}

impl Options {
    // How deep bundles and arrays may be nested: as deep as at all where that is not said.
    //
    // Ruled out: another depth than the one that is given; no depth where none is.
    pub fn depth(self) -> usize
        ensures { result ≡ depth_for self }
    {
        self.depth.unwrap_or(DEEPEST)
    }

    // How many records there may be: as many as at all where that is not said.
    //
    // Ruled out: another number than the one that is given; no record where none is.
    pub fn records(self) -> usize
        ensures { result ≡ records_for self }
    {
        self.records.unwrap_or(MOST_RECORDS)
    }

    // The options with this depth, which the word after word `at` says.
    fn with_depth(self, at: usize, word: &[u8]) -> Result<Options, Blame>
        requires { at < 16 }
        ensures { result ≡ depth_set at self (number_of_word word.now) }
    {
        let depth = short_number(word).ok_or(Trouble::NoNumber.at(at + 1))?;
        Ok(Options {
            depth: Some(depth as usize),
            ..self
        })
    }

    // The options with so many records.
    fn with_records(self, at: usize, word: &[u8]) -> Result<Options, Blame>
        requires { at < 16 }
        ensures { result ≡ records_set at self (number_of_word word.now) }
    {
        let records = short_number(word).ok_or(Trouble::NoNumber.at(at + 1))? as usize;
        if MOST_RECORDS < records {
            return Err(Trouble::ManyRecords.at(at + 1));
        }
        Ok(Options {
            records: Some(records),
            ..self
        })
    }

    // The options with one more, whose name is word `at` of the command, and whose number is the word after it.
    #[tactic(auto, using(words::proofs::Beside::equal_turned), unfolding(crate::specs::Options::chosen_by))]
    fn with_option(self, at: usize, name: &[u8], word: &[u8]) -> Result<Options, Blame>
        requires { at < 16 }
        ensures { result ≡ chosen_by at name.now word.now self }
    {
        if name == b"--depth".as_slice() {
            return match self.depth {
                Some(_) => Err(Trouble::Twice.at(at)),
                None => self.with_depth(at, word),
            };
        }
        if name == b"--records".as_slice() {
            return match self.records {
                Some(_) => Err(Trouble::Twice.at(at)),
                None => self.with_records(at, word),
            };
        }
        Err(Trouble::NoOption.at(at))
    }
}

// What the options of decode say, of whose words there are `count`: words 5 and 6, then 7 and 8.
//
// Ruled out: the depth of the defaults where --depth is given; the second of two numbers for one option.
#[tactic(auto, unfolding(crate::specs::Asked::options_of))]
pub fn options_of(
    count: usize,
    name: &[u8],
    word: &[u8],
    second: &[u8],
    second_word: &[u8],
) -> Result<Options, Blame>
    ensures { result ≡ options_of count name.now word.now second.now second_word.now }
{
    let none = Options::default();
    match count {
        5 => Ok(none),
        7 => none.with_option(5, name, word),
        9 => none
            .with_option(5, name, word)?
            .with_option(7, second, second_word),
        _ => Err(Trouble::DecodeWords.at(0)),
    }
}
