// The calls of the library, all in this file, and what they answer in one shape.
use edition::Edition;
use refusal::Refusal;
use results::Decoded;
use runs::said::put_text;
use values::value::OscType;
use words::lookup::beside;

// A call of the library. The text of a packet that `text_of` is asked for is that of the value that `look` gives.
#[derive(Clone, Copy, Debug, PartialEq, Eq)]
pub enum Call {
    DecodeUdp,
    DecodeTcp,
    DecodeTcpVec,
    DecodeTcp2,
    DecodeTcpVec2,
    Encode,
    EncodeTcp,
    EncodeTcp2,
    EncodeString,
    Pad,
    Look,
    TextOf,
    StartOf,
}

// The names of the calls, in the order of the calls.
pub const CALLS: [(&[u8], Call); 13] = [
    (b"decode_udp", Call::DecodeUdp),
    (b"decode_tcp", Call::DecodeTcp),
    (b"decode_tcp_vec", Call::DecodeTcpVec),
    (b"decode_tcp2", Call::DecodeTcp2),
    (b"decode_tcp_vec2", Call::DecodeTcpVec2),
    (b"encode", Call::Encode),
    (b"encode_tcp", Call::EncodeTcp),
    (b"encode_tcp2", Call::EncodeTcp2),
    (b"encode_string", Call::EncodeString),
    (b"pad", Call::Pad),
    (b"look", Call::Look),
    (b"text_of", Call::TextOf),
    (b"start_of", Call::StartOf),
];

// What `text_of` hands back for what names no part of the packet.
const LABEL: [u8; 5] = *b"label";

// What was given: the records or bytes, the kind or the position; the bytes left over; the bytes of padding that are not zero.
#[derive(Clone, Copy, Debug, PartialEq, Eq)]
pub struct Counts {
    pub count: u64,
    pub left: u64,
    pub dirty: u64,
}

// Why a call is refused: the number of the refusal, and where the field began that was short (17 to 21); 0 of every other.
#[derive(Clone, Copy, Debug, PartialEq, Eq)]
pub struct Reason {
    pub number: u8,
    pub offset: u64,
}

// What a call answered.
#[derive(Clone, Copy, Debug, PartialEq, Eq)]
pub enum Outcome {
    Given(Counts),
    Waiting,
    // A list stopped at a frame that begins at `frame`; `given` was read before it.
    Stopped {
        given: Counts,
        why: Reason,
        frame: u64,
    },
    Refused(Reason),
}

// The call that a name names.
pub fn call_of(name: &[u8]) -> Option<Call> {
    beside(&CALLS, name)
}

// An answer of a decoder that gives records.
pub fn records(count: u64, left: u64, dirty: u64) -> Counts {
    Counts { count, left, dirty }
}

// An answer of another call that gives so much: it leaves nothing, and reads no padding.
pub fn given(count: u64) -> Outcome {
    Outcome::Given(records(count, 0, 0))
}

// Why a call is refused, with its number in document 01.
fn why(refusal: Refusal) -> Reason {
    Reason {
        number: refusal::number_of(refusal),
        offset: refusal::offset_of(refusal) as u64,
    }
}

// What a decoder answered.
fn read(decoded: Decoded) -> Outcome {
    match decoded {
        Decoded::Packets { count, left, dirty } => Outcome::Given(records(
            count as u64,
            left as u64,
            dirty as u64,
        )),
        Decoded::Waiting => Outcome::Waiting,
        Decoded::Stopped {
            count,
            left,
            dirty,
            refusal,
            frame,
        } => Outcome::Stopped {
            given: records(count as u64, left as u64, dirty as u64),
            why: why(refusal),
            frame: frame as u64,
        },
    }
}

// The kind of a record that has this value.
fn kind_of(value: OscType) -> u8 {
    match value {
        OscType::Message { offset, length } => b'/',
        OscType::Bundle(time) => b'#',
        OscType::Int(x) => b'i',
        OscType::Float { bits, value } => b'f',
        OscType::String { offset, length } => b's',
        OscType::Blob { offset, length } => b'b',
        OscType::Time(time) => b't',
        OscType::Long(x) => b'h',
        OscType::Double { bits, value } => b'd',
        OscType::Char(x) => b'c',
        OscType::Color(color) => b'r',
        OscType::Midi(midi) => b'm',
        OscType::Bool(x) => if x { b'T' } else { b'F' },
        OscType::Nil => b'N',
        OscType::Inf => b'I',
        OscType::Array => b'[',
    }
}

// Puts the text that a value names into what is lent.
fn put_named(value: OscType, packet: &[u8], lent: &mut [u8]) -> usize {
    put_text(lent, 0, values::look::text_of(value, packet, &LABEL))
}

// What a call gives. The number is the depth for a decoder, the count for an encoder, the position for `pad` and the index for the others.
fn answer(
    call: Call,
    number: u64,
    input: &[u8],
    table: &[u8],
    lent: &mut [u8],
) -> Result<Outcome, Refusal> {
    let n = number as usize;
    Ok(match call {
        Call::DecodeUdp => read(decoder::decode_udp(input, lent, n)?),
        Call::DecodeTcp => read(decoder::decode_tcp(Edition::Rosc, input, lent, n)?),
        Call::DecodeTcpVec => read(decoder::decode_tcp_vec(Edition::Rosc, input, lent, n)?),
        Call::DecodeTcp2 => read(decoder::decode_tcp(Edition::Standard, input, lent, n)?),
        Call::DecodeTcpVec2 => read(decoder::decode_tcp_vec(Edition::Standard, input, lent, n)?),
        Call::Encode => given(encoder::encode(table, n, input, lent)? as u64),
        Call::EncodeTcp => given(encoder::encode_tcp(Edition::Rosc, table, n, input, lent)? as u64),
        Call::EncodeTcp2 => given(
            encoder::encode_tcp(Edition::Standard, table, n, input, lent)? as u64,
        ),
        Call::EncodeString => given(encoder::encode_string(input, lent)? as u64),
        Call::Pad => given(wire::pad(number)?),
        Call::Look => given(kind_of(values::look::look(table, n)?) as u64),
        Call::TextOf => given(put_named(values::look::look(table, n)?, input, lent) as u64),
        Call::StartOf => given(values::look::start_of(table, n)? as u64),
    })
}

// Makes a call.
pub fn make(call: Call, number: u64, input: &[u8], table: &[u8], lent: &mut [u8]) -> Outcome {
    match answer(call, number, input, table, lent) {
        Ok(outcome) => outcome,
        Err(refusal) => Outcome::Refused(why(refusal)),
    }
}
