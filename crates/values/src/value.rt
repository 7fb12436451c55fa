// What a record says of its node, as a value: types.rs, `OscType` and its parts.
ghost use Rattle.std.specs.Prelude.{◌≡◌, true, ◌+◌, ◌*◌};
ghost use Rattle.node.specs.Rules.{own_rules};
ghost use Rattle.values.specs.Value.{color_of, midi_of, bare_of, narrow_of, value_of};

use node::record::Item;
use node::tags::{BUNDLE, MESSAGE};
use std::num::{f32_from_bits_with_nan, f64_from_bits_with_nan};

// A time tag: seconds since 1900 and fractions of a second.
#[derive(Clone, Copy, Debug, PartialEq, Eq)]
pub struct OscTime {
    pub seconds: u32,
    pub fractional: u32,
}

// An RGBA colour.
#[derive(Clone, Copy, Debug, PartialEq, Eq)]
pub struct OscColor {
    pub red: u8,
    pub green: u8,
    pub blue: u8,
    pub alpha: u8,
}

// A MIDI message.
#[derive(Clone, Copy, Debug, PartialEq, Eq)]
pub struct OscMidiMessage {
    pub port: u8,
    pub status: u8,
    pub data1: u8,
    pub data2: u8,
}

// The value of a record. Text and blobs are a range of the packet; a float stands beside the bits that fix it, since all
// NaNs are one value here.
#[derive(Clone, Copy, Debug, PartialEq)]
pub enum OscType {
    // '/': the range of the address.
    Message { offset: u32, length: u32 },
    // '#'.
    Bundle(OscTime),
    // 'i'.
    Int(i32),
    // 'f'.
    Float { bits: u32, value: f32 },
    // 's'.
    String { offset: u32, length: u32 },
    // 'b'.
    Blob { offset: u32, length: u32 },
    // 't'.
    Time(OscTime),
    // 'h'.
    Long(i64),
    // 'd'.
    Double { bits: u64, value: f64 },
    // 'c'.
    Char(u32),
    // 'r'.
    Color(OscColor),
    // 'm'.
    Midi(OscMidiMessage),
    // 'T' and 'F'.
    Bool(bool),
    // 'N'.
    Nil,
    // 'I'.
    Inf,
    // '['.
    Array,
}

// The number of two halves.
fn joined(high: u32, low: u32) -> u64
    ensures { result ≡ high * 0x1_0000_0000 + low }
{
    u64::from(high) * 0x1_0000_0000 + u64::from(low)
}

// The four bytes of a field as a colour.
fn color_of(x: u32) -> OscColor
    ensures { result ≡ color_of x }
{
    let [red, green, blue, alpha] = x.to_be_bytes();
    OscColor {
        red,
        green,
        blue,
        alpha,
    }
}

// The four bytes of a field as a MIDI message.
fn midi_of(x: u32) -> OscMidiMessage
    ensures { result ≡ midi_of x }
{
    let [port, status, data1, data2] = x.to_be_bytes();
    OscMidiMessage {
        port,
        status,
        data1,
        data2,
    }
}

// The value of a kind that has no field; of those that the rules below let pass, the last is '['.
#[tactic(auto, unfolding(crate::specs::Value::bare_of))]
fn bare(kind: u8) -> OscType
    ensures { result ≡ bare_of kind }
{
    match kind {
        b'T' => OscType::Bool(true),
        b'F' => OscType::Bool(false),
        b'N' => OscType::Nil,
        b'I' => OscType::Inf,
        _ => OscType::Array,
    }
}

// The value of a kind whose second field is 0.
#[tactic(auto, unfolding(crate::specs::Value::narrow_of))]
fn narrow(kind: u8, a: u32) -> OscType
    ensures { result ≡ narrow_of kind a }
{
    match kind {
        b'i' => OscType::Int(a.cast_signed()),
        b'f' => OscType::Float {
            bits: a,
            value: f32_from_bits_with_nan(a),
        },
        b'c' => OscType::Char(a),
        b'r' => OscType::Color(color_of(a)),
        b'm' => OscType::Midi(midi_of(a)),
        _ => bare(kind),
    }
}

// The value of a record whose own rules hold: of these, '[' alone is an array.
//
// Ruled out: the halves of an 'h' or 'd' swapped; an infinity for a NaN.
#[tactic(auto, unfolding(crate::specs::Value::value_by))]
pub fn value_of(item: Item) -> OscType
    requires { own_rules item ≡ true }
    ensures { result ≡ value_of item }
{
    let kind = item.kind;
    let a = item.a;
    let b = item.b;
    match kind {
        MESSAGE => OscType::Message {
            offset: a,
            length: b,
        },
        BUNDLE => OscType::Bundle(OscTime {
            seconds: a,
            fractional: b,
        }),
        b's' => OscType::String {
            offset: a,
            length: b,
        },
        b'b' => OscType::Blob {
            offset: a,
            length: b,
        },
        b't' => OscType::Time(OscTime {
            seconds: a,
            fractional: b,
        }),
        b'h' => OscType::Long(joined(a, b).cast_signed()),
        b'd' => {
            let bits = joined(a, b);
            OscType::Double {
                bits,
                value: f64_from_bits_with_nan(bits),
            }
        }
        _ => narrow(kind, a),
    }
}
