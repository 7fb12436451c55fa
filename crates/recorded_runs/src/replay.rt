// One case replayed: the call, and whether it leaves what is due.
ghost use Rattle.std.specs.Prelude.{◌≤◌};
ghost use Rattle.recorded_runs.specs.Layout.{Laid};
ghost use Rattle.recorded_runs.specs.Compared.{Compared};

use crate::case::Case;
use crate::operation::Operation;

// What is the first that differs in a case.
#[derive(Clone, Copy, Debug, PartialEq, Eq)]
pub enum Difference {
    OtherAnswer,
    OtherField,
    OtherBytes,
    LaterByte,
}

// What a case met: what was answered, the sum of what was lent, and how the case went.
#[derive(Clone, Copy, Debug, PartialEq, Eq)]
pub struct Met {
    pub answer: u64,
    pub sum: u64,
    pub outcome: Result<(), Difference>,
}

// Makes the call of an operation. A decoder says more beside its answer.
fn answer(
    operation: Operation,
    number: u64,
    first: &[u8],
    second: &[u8],
    out: &mut [u8],
    more: &mut u64,
) -> u64 {
    match operation {
        Operation::DecodeUdp => osc::osc_decode_udp(first, out, number, more),
        Operation::DecodeTcp => osc::osc_decode_tcp(first, out, number, more),
        Operation::DecodeTcpVec => osc::osc_decode_tcp_vec(first, out, number, more),
        Operation::Encode => osc::osc_encode(first, number, second, out),
        Operation::EncodeTcp => osc::osc_encode_tcp(first, number, second, out),
        Operation::EncodeString => osc::osc_encode_string(first, out),
        Operation::Pad => osc::osc_pad(number),
        Operation::Look => osc::osc_look(first, number),
        Operation::StartOf => osc::osc_start(first, number),
        Operation::DecodeTcp2 => osc::osc_decode_tcp2(first, out, number, more),
        Operation::DecodeTcpVec2 => osc::osc_decode_tcp_vec2(first, out, number, more),
        Operation::EncodeTcp2 => osc::osc_encode_tcp2(first, number, second, out),
    }
}

// Compares an answer, what is said beside it and what the call left in the buffer with what is due.
//
// Ruled out: a case that is right where a later byte is changed; one that is right where another field is said to be short, or padding to
// be less dirty.
fn compare(
    answer: u64,
    due: u64,
    more: u64,
    field: u64,
    out: &[u8],
    written: &[u8],
) -> Result<(), Difference>
    ensures { Compared answer due more field out.now written.now result }
{
    if answer != due {
        return Err(Difference::OtherAnswer);
    }
    if more != field {
        return Err(Difference::OtherField);
    }
    if !runs::begins(out, written) {
        return Err(Difference::OtherBytes);
    }
    if !runs::is_kept(out, written.len()) {
        return Err(Difference::LaterByte);
    }
    Ok(())
}

// Replays a case in a buffer of just the room that it has.
fn replay_in(s: &[u8], case: Case, out: &mut [u8]) -> Met
    requires { Laid s.now case }
{
    let first = case.first;
    let second = case.second;
    let end = case.end;
    let mut more = 0u64;
    runs::fill(out);
    let answered = answer(
        case.operation,
        case.number,
        &s[17..first],
        &s[first + 4..second],
        out,
        &mut more,
    );
    let outcome = compare(
        answered,
        case.due,
        more,
        case.more,
        out,
        &s[second + 20..end],
    );
    Met {
        answer: answered,
        sum: runs::sum_of(out),
        outcome,
    }
}

// Replays a case that wants little room: most do, and a large space would be cleared for each.
fn replay_small(s: &[u8], case: Case) -> Met
    requires { Laid s.now case × (case.room ≤ 4096) }
{
    let mut space = io::buffer();
    let room = case.room;
    replay_in(s, case, &mut space[0..room])
}

// Replays a case.
pub fn replay(s: &[u8], case: Case) -> Met
    requires { Laid s.now case }
{
    if case.room <= 4096 {
        return replay_small(s, case);
    }
    let mut space = io::large_buffer();
    let room = case.room;
    replay_in(s, case, &mut space[0..room])
}
