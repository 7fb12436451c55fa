// The first reading of a whole input: of one packet, and of frames of edition 1. It writes nothing.
#![tactic(auto)]

ghost use Rattle.std.specs.Prelude.{◌≡◌, Ok, List, ℕ, ◌≤◌, length};
ghost use Rattle.wire.specs.Limits.{longest};
ghost use Rattle.argument.specs.CodeParts.{StandsAt};
ghost use Rattle.argument.specs.Dirt.{dirty_in};
ghost use Rattle.measure.specs.CodeMeasure.{node_dirt};
ghost use Rattle.framing.specs.Framing.{read_frame, tcp, tcp_vec};
ghost use Rattle.rosc_inputs.specs.Results.{Trees};
ghost use Rattle.rosc_inputs.specs.CodeTotals.{frame_extent, EndsIn, total_of, total_of_one, added};

use heads::Prefix;
use measure::MeasuredPacket;
use refusal::{Fault, Field, Refusal, moved};

// What the first reading of a whole input finds.
#[derive(Clone, Copy, Debug, PartialEq, Eq)]
pub enum MeasuredInput {
    // The records of all the trees, the bytes left over, and how many bytes of the padding of all that is kept are not zero.
    Trees {
        count: usize,
        left: usize,
        dirty: usize,
    },
    // In one of the trees bundles and arrays are nested deeper than the limit.
    Deep,
    Waiting,
    // Of an edition 2 list: the trees before a refused frame, the bytes from its prefix on, why it is refused, and its offset.
    Stopped {
        count: usize,
        left: usize,
        dirty: usize,
        refusal: Refusal,
        frame: usize,
    },
}

// The total of one packet of `n` bytes of input.
//
// Ruled out: the bytes read as those left over; a tree where the packet is too deep.
pub fn measure_one(
    extent: Result<MeasuredPacket, Fault>,
    n: usize,
) -> Result<MeasuredInput, Refusal>
    requires { EndsIn n extent }
    ensures { result ≡ total_of_one n extent }
{
    let packet = extent?;
    match packet {
        MeasuredPacket::Tree { count, next, dirty } => Ok(MeasuredInput::Trees {
            count,
            left: n - next,
            dirty,
        }),
        MeasuredPacket::Deep { next: _ } => Ok(MeasuredInput::Deep),
    }
}

// The first reading of one frame.
//
// Ruled out: a frame's packet cut at its length; a packet that is refused taken for one that waits.
pub fn measure_tcp(msg: &[u8], depth: usize) -> Result<MeasuredInput, Refusal>
    requires { length msg.now ≤ longest }
    ensures { result ≡ total_of depth (dirty_in msg.now) (tcp msg.now) }
{
    match measure_frame(msg, depth) {
        Some(extent) => measure_one(extent, msg.len()),
        None => Ok(MeasuredInput::Waiting),
    }
}

// The first reading of a list of frames. A frame that is too deep is passed over: a later one may be refused.
//
// Ruled out: a list that ends at a frame that is too deep; a fault told from its frame's prefix on.
pub fn measure_tcp_vec(msg: &[u8], depth: usize) -> Result<MeasuredInput, Refusal>
    requires { length msg.now ≤ longest }
    ensures { result ≡ total_of depth (dirty_in msg.now) (tcp_vec msg.now) }
{
    if msg.len() == 0 {
        return Err(Refusal::Unreadable(Fault::Short {
            field: Field::Head,
            at: 0,
        }));
    }
    let mut at = 0;
    let mut count = 0;
    let mut dirt = 0;
    let mut deep = false;
    while at < msg.len() {
        match measure_frame(&msg[at..], depth) {
            None => return Ok(counted(count, dirt, deep, msg.len() - at)),
            Some(
                Ok(
                    MeasuredPacket::Tree {
                        count: n,
                        next,
                        dirty,
                    },
                ),
            ) => {
                count += n;
                dirt += dirty;
                at += next;
            }
            Some(Ok(MeasuredPacket::Deep { next })) => {
                deep = true;
                at += next;
            }
            Some(Err(fault)) => return Err(Refusal::Unreadable(moved(at, fault))),
        }
    }
    Ok(counted(count, dirt, deep, 0))
}

// The total of frames after which nothing more is read.
fn counted(count: usize, dirty: usize, deep: bool, left: usize) -> MeasuredInput
    ensures { Ok result ≡ added count dirty deep (Trees 0 left 0) }
{
    if deep {
        return MeasuredInput::Deep;
    }
    MeasuredInput::Trees { count, left, dirty }
}

// The first reading of a frame: a packet from everything after the prefix; none where the frame waits.
fn measure_frame(input: &[u8], depth: usize) -> Option<Result<MeasuredPacket, Fault>>
    requires { length input.now ≤ longest }
    ensures { (base : ℕ) (msg : List ℕ) → StandsAt msg base input.now
        → result ≡ frame_extent depth (node_dirt base msg) (read_frame base input.now) }
{
    match heads::read_prefix(input) {
        Prefix::Ready => Some(measure::measure_packet(&input[4..], 4, depth)),
        Prefix::Waiting => None,
        Prefix::RunsOut => Some(Err(Fault::Short {
            field: Field::Head,
            at: 0,
        })),
    }
}
