// A value as text: the name of its case and what it holds.
use std::fmt::{Result, Write};
use values::value::{OscColor, OscMidiMessage, OscTime, OscType};
use words::hex::Hex;
use words::written::Answer;

// What a value is beside its bits. A NaN is equal to nothing, and has no bits of its own here.
fn what_f32(bits: u32, value: f32) -> &'static str {
    if value != value {
        return "nan";
    }
    if f32::to_bits(value) == bits {
        "number"
    } else {
        "another"
    }
}

// The same for 64 bits.
fn what_f64(bits: u64, value: f64) -> &'static str {
    if value != value {
        return "nan";
    }
    if f64::to_bits(value) == bits {
        "number"
    } else {
        "another"
    }
}

// A float of 32 bits: its bits, and whether its value is a NaN, the number of these bits, or another.
fn put_f32(out: &mut Answer, bits: u32, value: f32) -> Result {
    write!(
        out,
        " float {} {}",
        Hex(&bits.to_be_bytes()),
        what_f32(bits, value)
    )
}

// A float of 64 bits.
fn put_f64(out: &mut Answer, bits: u64, value: f64) -> Result {
    write!(
        out,
        " double {} {}",
        Hex(&bits.to_be_bytes()),
        what_f64(bits, value)
    )
}

// A colour.
fn put_color(out: &mut Answer, color: OscColor) -> Result {
    write!(
        out,
        " color {} {} {} {}",
        color.red, color.green, color.blue, color.alpha
    )
}

// A MIDI message.
fn put_midi(out: &mut Answer, midi: OscMidiMessage) -> Result {
    write!(
        out,
        " midi {} {} {} {}",
        midi.port, midi.status, midi.data1, midi.data2
    )
}

// A time tag: a bundle's, or an argument's.
fn put_time(out: &mut Answer, name: &str, time: OscTime) -> Result {
    write!(out, " {name} {} {}", time.seconds, time.fractional)
}

// Puts a value. A range is one of the packet: of a message's address, a text or a blob.
pub fn put_value(out: &mut Answer, value: OscType) -> Result {
    match value {
        OscType::Message { offset, length } => write!(out, " message {offset} {length}"),
        OscType::Bundle(time) => put_time(out, "bundle", time),
        OscType::Int(x) => write!(out, " int {x}"),
        OscType::Float { bits, value } => put_f32(out, bits, value),
        OscType::String { offset, length } => write!(out, " string {offset} {length}"),
        OscType::Blob { offset, length } => write!(out, " blob {offset} {length}"),
        OscType::Time(time) => put_time(out, "time", time),
        OscType::Long(x) => write!(out, " long {x}"),
        OscType::Double { bits, value } => put_f64(out, bits, value),
        OscType::Char(x) => write!(out, " char {x}"),
        OscType::Color(color) => put_color(out, color),
        OscType::Midi(midi) => put_midi(out, midi),
        OscType::Bool(x) => write!(out, " bool {x}"),
        OscType::Nil => write!(out, " nil"),
        OscType::Inf => write!(out, " inf"),
        OscType::Array => write!(out, " array"),
    }
}
