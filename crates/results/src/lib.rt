// What the public calls answer. These types stand alone, so that what only speaks of an answer stands on no reader and no writer.
#![tactic(auto)]

use refusal::Refusal;

// What a decoder answers, where the call is not refused.
#[derive(Clone, Copy, Debug, PartialEq, Eq)]
pub enum Decoded {
    // Of one packet or of a list of packets: records written, input bytes left over, and how many bytes of the padding of all that is kept
    // are not zero.
    Packets {
        count: usize,
        left: usize,
        dirty: usize,
    },
    // The first frame is not all there: nothing was read.
    Waiting,
    // Of an edition 2 list: the records of the packets before a refused frame, which are written, the bytes from its prefix on, their dirty
    // padding, why the frame is refused, and the offset of its prefix.
    Stopped {
        count: usize,
        left: usize,
        dirty: usize,
        refusal: Refusal,
        frame: usize,
    },
}

// What a step over the bytes of a stream answers, where the call is not refused.
#[derive(Clone, Copy, Debug, PartialEq, Eq)]
pub enum Portion {
    // The packets of every whole frame: records written, the bytes that those frames take, and their dirty padding. The bytes from `used`
    // on are to be kept: what comes next stands after them.
    Read {
        count: usize,
        used: usize,
        dirty: usize,
    },
    // The same of the frames before one that is refused, which stands at `used`: the stream cannot be read further.
    Ended {
        count: usize,
        used: usize,
        dirty: usize,
        refusal: Refusal,
    },
}

// Why an index goes no further.
#[derive(Clone, Copy, Debug, PartialEq, Eq)]
pub enum End {
    // The recording has no byte more.
    Whole,
    // The next frame is not all there.
    Waiting,
    // The next frame is refused.
    Refused(Refusal),
}

// What a step over the bytes of a recording has written: so many records for the first `used` bytes, and why no more.
#[derive(Clone, Copy, Debug, PartialEq, Eq)]
pub struct Indexed {
    pub records: usize,
    pub used: usize,
    pub end: End,
}

// An index differs from the one that is written afresh: in the record `at`, from 0, which is another, is missing or is one too many. A part
// of a record counts as one.
#[derive(Clone, Copy, Debug, PartialEq, Eq)]
pub struct IndexDiffers {
    pub at: usize,
}

// The number of the refusal of an index that differs; which record differs stands beside it.
pub const INDEX_DIFFERS: u8 = 25;

// What a record of an index says: where the frame's prefix stands, its length without the prefix, and the records of its table.
#[derive(Clone, Copy, Debug, PartialEq, Eq)]
pub struct CueAt {
    pub offset: u64,
    pub size: u32,
    pub records: u32,
}
