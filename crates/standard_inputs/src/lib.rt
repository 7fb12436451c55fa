// The first reading of frames of edition 2, whose length cuts the packet (Ticket 1). It writes nothing.
#![tactic(auto)]

ghost use Rattle.std.specs.Prelude.{◌≡◌, Ok, List, ℕ, ◌≤◌, length};
ghost use Rattle.wire.specs.Limits.{longest};
ghost use Rattle.argument.specs.CodeParts.{StandsAt};
ghost use Rattle.argument.specs.Dirt.{dirty_in};
ghost use Rattle.measure.specs.CodeMeasure.{node_dirt};
ghost use Rattle.framing.specs.Framing.{cut_frame, tcp2, tcp_vec2};
ghost use Rattle.rosc_inputs.specs.CodeTotals.{total_of};
ghost use Rattle.rosc_inputs.specs.Results.{Stopped};
ghost use Rattle.standard_inputs.specs.CodeStreams.{cut_extent, judged};

use heads::BadLength;
use measure::MeasuredPacket;
use refusal::{Fault, Refusal, moved};
use rosc_inputs::MeasuredInput;

// What the first reading of a frame finds: the records of its tree, the bytes of the frame, prefix included, and how many bytes of its padding
// are not zero.
#[derive(Clone, Copy, Debug, PartialEq, Eq)]
pub struct MeasuredFrame {
    pub count: usize,
    pub next: usize,
    pub dirty: usize,
}

// Why a frame is refused.
#[derive(Clone, Copy, Debug, PartialEq, Eq)]
pub enum BadFrame {
    // For its packet. The place is told from the prefix on.
    Unreadable(Fault),
    // For its length, for what is left in it, or for its depth.
    Refused(Refusal),
}

// The first reading of one frame.
//
// Ruled out: a packet that reads past its frame; 21 for an input of three bytes, which waits.
pub fn measure_tcp2(msg: &[u8], depth: usize) -> Result<MeasuredInput, Refusal>
    requires { length msg.now ≤ longest }
    ensures { result ≡ total_of depth (dirty_in msg.now) (tcp2 depth msg.now) }
{
    match measure_cut(msg, depth) {
        Ok(Some(frame)) => Ok(MeasuredInput::Trees {
            count: frame.count,
            left: msg.len() - frame.next,
            dirty: frame.dirty,
        }),
        Ok(None) => Ok(MeasuredInput::Waiting),
        Err(BadFrame::Unreadable(fault)) => Err(Refusal::Unreadable(fault)),
        Err(BadFrame::Refused(refusal)) => Err(refusal),
    }
}

// The first reading of a list of frames: it ends at the first that is refused, and says where.
//
// Ruled out: a refused frame that refuses the packets before it; a frame's offset after its prefix.
pub fn measure_tcp_vec2(msg: &[u8], depth: usize) -> Result<MeasuredInput, Refusal>
    requires { length msg.now ≤ longest }
    ensures { result ≡ total_of depth (dirty_in msg.now) (tcp_vec2 depth msg.now) }
{
    let mut at = 0;
    let mut count = 0;
    let mut dirt = 0;
    while at < msg.len() {
        let left = msg.len() - at;
        match measure_cut(&msg[at..], depth) {
            Ok(Some(frame)) => {
                count += frame.count;
                dirt += frame.dirty;
                at += frame.next;
            }
            Ok(None) => {
                return Ok(MeasuredInput::Trees {
                    count,
                    left,
                    dirty: dirt,
                });
            }
            Err(BadFrame::Unreadable(fault)) => {
                let refusal = Refusal::Unreadable(moved(at, fault));
                return Ok(stop(count, dirt, left, refusal, at));
            }
            Err(BadFrame::Refused(refusal)) => return Ok(stop(count, dirt, left, refusal, at)),
        }
    }
    Ok(MeasuredInput::Trees {
        count,
        left: 0,
        dirty: dirt,
    })
}

// The total of the frames before one that is refused.
fn stop(count: usize, dirty: usize, left: usize, refusal: Refusal, frame: usize) -> MeasuredInput
    ensures { Ok result ≡ Stopped count left dirty refusal frame }
{
    MeasuredInput::Stopped {
        count,
        left,
        dirty,
        refusal,
        frame,
    }
}

// The first reading of a frame: a packet from the bytes that its length counts; none where the frame is not all there.
fn measure_cut(input: &[u8], depth: usize) -> Result<Option<MeasuredFrame>, BadFrame>
    requires { length input.now ≤ longest }
    ensures { (base : ℕ) (msg : List ℕ) → StandsAt msg base input.now
        → result ≡ cut_extent (node_dirt base msg) (cut_frame depth base input.now) }
{
    match heads::read_length(input) {
        Ok(Some(n)) => judge(measure::measure_packet(&input[4..4 + n], 4, depth), 4 + n),
        Ok(None) => Ok(None),
        Err(BadLength::Over) => Err(BadFrame::Refused(Refusal::TooLong)),
        Err(BadLength::Odd) => Err(BadFrame::Refused(Refusal::OddLength)),
    }
}

// What a packet makes of its frame of `n` bytes, prefix included: 15 comes before 9.
fn judge(extent: Result<MeasuredPacket, Fault>, n: usize) -> Result<Option<MeasuredFrame>, BadFrame>
    ensures { result ≡ judged n extent }
{
    match extent {
        Ok(MeasuredPacket::Tree { count, next, dirty }) => {
            if next != n {
                return Err(BadFrame::Refused(Refusal::BytesLeft));
            }
            Ok(Some(MeasuredFrame { count, next, dirty }))
        }
        Ok(MeasuredPacket::Deep { next }) => {
            if next != n {
                return Err(BadFrame::Refused(Refusal::BytesLeft));
            }
            Err(BadFrame::Refused(Refusal::TooDeep))
        }
        Err(fault) => Err(BadFrame::Unreadable(fault)),
    }
}
