// What a decoder answers to the first reading, within the limits.
#![tactic(auto)]

ghost use Rattle.std.specs.Prelude.{◌≡◌, Ok, ◌≤◌, length};
ghost use Rattle.wire.specs.Limits.{longest};
ghost use Rattle.argument.specs.Dirt.{dirty_in};
ghost use Rattle.framing.specs.Framing.{rule_of};
ghost use Rattle.rosc_inputs.specs.CodeTotals.{total_of};
ghost use Rattle.answering.specs.Limits.{decoded};
ghost use Rattle.answering.specs.CodeAnswered.{answered};

use edition::{Edition, Framing};
use refusal::Refusal;
use results::Decoded;
use rosc_inputs::MeasuredInput;

// What a decoder answers: 13, then 1, then the first reading, and 10 last.
//
// Ruled out: 1 where the depth limit is over 64; 10 where a tree is too deep.
pub fn answer(
    framing: Framing,
    msg: &[u8],
    capacity: usize,
    depth: usize,
) -> Result<Decoded, Refusal>
    ensures { result ≡ decoded (rule_of framing depth) capacity depth msg.now }
{
    if wire::DEEPEST < depth {
        return Err(Refusal::DepthLimit);
    }
    if wire::LONGEST < msg.len() {
        return Err(Refusal::TooLong);
    }
    let input = measure_input(framing, msg, depth)?;
    within(capacity, input)
}

// The answer to a first reading, where the table has room for `capacity` records.
fn within(capacity: usize, input: MeasuredInput) -> Result<Decoded, Refusal>
    ensures { result ≡ answered capacity (Ok input) }
{
    match input {
        MeasuredInput::Trees { count, left, dirty } => {
            if capacity < count {
                return Err(Refusal::TableFull);
            }
            Ok(Decoded::Packets { count, left, dirty })
        }
        MeasuredInput::Deep => Err(Refusal::TooDeep),
        MeasuredInput::Waiting => Ok(Decoded::Waiting),
        MeasuredInput::Stopped {
            count,
            left,
            dirty,
            refusal,
            frame,
        } => {
            if count > capacity {
                return Err(Refusal::TableFull);
            }
            Ok(Decoded::Stopped {
                count,
                left,
                dirty,
                refusal,
                frame,
            })
        }
    }
}

// The first reading of a whole input, by its framing.
fn measure_input(framing: Framing, msg: &[u8], depth: usize) -> Result<MeasuredInput, Refusal>
    requires { length msg.now ≤ longest }
    ensures { result ≡ total_of depth (dirty_in msg.now) (rule_of framing depth msg.now) }
{
    match framing {
        Framing::Udp => rosc_inputs::measure_one(measure::measure_packet(msg, 0, depth), msg.len()),
        Framing::Tcp(edition) => match edition {
            Edition::Rosc => rosc_inputs::measure_tcp(msg, depth),
            Edition::Standard => standard_inputs::measure_tcp2(msg, depth),
        },
        Framing::TcpVec(edition) => match edition {
            Edition::Rosc => rosc_inputs::measure_tcp_vec(msg, depth),
            Edition::Standard => standard_inputs::measure_tcp_vec2(msg, depth),
        },
    }
}
