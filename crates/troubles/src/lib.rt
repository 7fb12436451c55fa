// What may be wrong with the words of a command, and with the files that they name. It stands alone, so that what finds trouble and what
// says it do not stand on each other.
#![tactic(auto)]

ghost use Rattle.std.specs.Prelude.{◌≡◌};
ghost use Rattle.troubles.specs.Blames.{blame};

#[derive(Clone, Copy)]
pub enum Trouble {
    NoCommand,
    DecodeWords,
    EncodeWords,
    LookWords,
    NoFraming,
    OnePacket,
    NoOption,
    Twice,
    NoNumber,
    ManyRecords,
    NoName,
    LongName,
    NoFile,
    OneFile,
    TooLarge,
    NoTable,
    IndexWords,
    CheckWords,
    CueWords,
    Shorter,
    NoReplace,
    IndexLength,
    IndexFront,
    TableLength,
    TableFront,
    Exists,
    TwoNames,
    TimeWords,
    NoRule,
    NoTime,
    ShiftWords,
    NoAmount,
}

// A trouble, and the word of the command that is to blame; word 0 is the name of the program.
#[derive(Clone, Copy)]
pub struct Blame {
    pub trouble: Trouble,
    pub word: usize,
}

impl Trouble {
    // The trouble with this word.
    //
    // Ruled out: the word after it; no word at all.
    pub fn at(self, word: usize) -> Blame
        ensures { result ≡ blame self word }
    {
        Blame {
            trouble: self,
            word,
        }
    }
}
