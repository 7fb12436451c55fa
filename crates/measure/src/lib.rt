// The first reading of a packet: it writes nothing, and goes no deeper than the limit on nested bundles and arrays.
#![tactic(auto)]

ghost use Rattle.std.specs.Prelude.{◌≡◌, Ok, List, ℕ, ◌+◌, ◌≤◌, length};
ghost use Rattle.wire.specs.Limits.{longest};
ghost use Rattle.heads.specs.Heads.{message_item};
ghost use Rattle.packet.specs.FirstText.{start_of};
ghost use Rattle.packet.specs.Packet.{read_message, read_packet, read_elements, read_bundle, read_element, used_by};
ghost use Rattle.argument.specs.CodeParts.{StandsAt};
ghost use Rattle.measure.specs.CodeMeasure.{fitting, extent, node_dirt, message_dirt, bundle_dirt, skimmed, accepted};

use packet::PacketStart;
use refusal::{Fault, Field};
use text::dirty_in;

// What the first reading of a packet finds; `next` is the position after its last byte.
#[derive(Clone, Copy, Debug, PartialEq, Eq)]
pub enum MeasuredPacket {
    // Its records, and how many bytes of the padding of all that it keeps are not zero.
    Tree {
        count: usize,
        next: usize,
        dirty: usize,
    },
    // Its bundles and arrays are nested deeper than the limit.
    Deep {
        next: usize,
    },
}

// A packet at `pos`; `room` levels of bundles and arrays may be opened yet.
//
// Ruled out: padding counted from the start of an element; a bundle too deep where there is room for one level; the dirt of an address
// left out.
#[cycle(measure_bundle_measure_element_measure_packet)]
pub fn measure_packet(input: &[u8], pos: usize, room: usize) -> Result<MeasuredPacket, Fault>
    requires { pos + length input.now ≤ longest }
    ensures { (base : ℕ) (msg : List ℕ) → StandsAt msg (base + pos) input.now
        → result ≡ extent room pos (node_dirt base msg) (read_packet base input.now pos) }
{
    let start = packet::read_start(input, pos)?;
    match start {
        PacketStart::Message { length, used } => {
            let dirt = dirty_in(&input[length + 1..used]);
            measure_message(&input[used..], pos + used, room, dirt)
        }
        PacketStart::Bundle { used } => {
            let dirt = dirty_in(&input[8..used]);
            measure_bundle(&input[used..], pos + used, room, dirt)
        }
    }
}

// A packet that is `depth` levels deep, has `count` records, ends at `next` and is so dirty.
fn fit(room: usize, depth: usize, count: usize, next: usize, dirty: usize) -> MeasuredPacket
    ensures { Ok result ≡ fitting room depth count next dirty }
{
    if room < depth {
        return MeasuredPacket::Deep { next };
    }
    MeasuredPacket::Tree { count, next, dirty }
}

// What follows the address of a message, whose padding has so much dirt: the type text, then the data. The message is as deep as its
// arguments.
//
// Ruled out: a count without the message's own record; too deep where arrays are nested exactly as deep as there is room; the dirt of
// the type text left out.
pub fn measure_message(
    input: &[u8],
    pos: usize,
    room: usize,
    dirt: usize,
) -> Result<MeasuredPacket, Fault>
    requires { (pos + length input.now ≤ longest) × (dirt ≤ longest) }
    ensures { (base : ℕ) (msg : List ℕ) → StandsAt msg (base + pos) input.now → (offset n : ℕ)
        → result ≡ extent room pos (message_dirt base msg (base + pos) dirt)
        (read_message base (message_item offset n) input.now pos) }
{
    match text::read_osc_string(input, pos) {
        Ok(found) => {
            let used = found.used;
            let tags = heads::tags_in(&input[0..found.length]);
            let types = dirty_in(&input[found.length + 1..used]);
            let args = arguments::measure_osc_args(tags, &input[used..], pos + used)?;
            let next = pos + used + args.used;
            Ok(fit(
                room,
                args.depth,
                1 + args.count,
                next,
                dirt + types + args.dirty,
            ))
        }
        Err(lack) => Err(text::fault_in(Field::TypeText, pos, lack)),
    }
}

// What follows "#bundle", whose padding has so much dirt. Where the limit is reached, or was passed in an element, no bundle is opened any
// more: the elements that are left are skimmed, and say where the bundle ends.
#[cycle(measure_bundle_measure_element_measure_packet)]
fn measure_bundle(
    input: &[u8],
    pos: usize,
    room: usize,
    dirt: usize,
) -> Result<MeasuredPacket, Fault>
    requires { (pos + length input.now ≤ longest) × (dirt ≤ longest) }
    ensures { (base : ℕ) (msg : List ℕ) → StandsAt msg (base + pos) input.now → (start : ℕ)
        → result ≡ extent room pos (bundle_dirt base msg dirt) (read_bundle base start input.now pos) }
{
    if input.len() < 8 {
        return Err(Fault::Short {
            field: Field::Head,
            at: pos,
        });
    }
    let mut rest = &input[8..];
    let mut at = pos + 8;
    let mut count = 1;
    let mut sum = dirt;
    if room == 0 {
        return Ok(MeasuredPacket::Deep {
            next: skim_elements(rest, at),
        });
    }
    loop {
        match measure_element(rest, at, room - 1) {
            Ok(
                MeasuredPacket::Tree {
                    count: n,
                    next,
                    dirty,
                },
            ) => {
                count += n;
                sum += dirty;
                rest = &rest[next - at..];
                at = next;
            }
            Ok(MeasuredPacket::Deep { .. }) => {
                return Ok(MeasuredPacket::Deep {
                    next: skim_elements(rest, at),
                });
            }
            Err(_) => {
                return Ok(MeasuredPacket::Tree {
                    count,
                    next: at,
                    dirty: sum,
                });
            }
        }
    }
}

// An element: a size and that many bytes, which hold a packet.
#[cycle(measure_bundle_measure_element_measure_packet)]
fn measure_element(input: &[u8], pos: usize, room: usize) -> Result<MeasuredPacket, Fault>
    requires { pos + length input.now ≤ longest }
    ensures { (base : ℕ) (msg : List ℕ) → StandsAt msg (base + pos) input.now
        → result ≡ extent room (pos + 4) (node_dirt base msg) (read_element base input.now pos) }
{
    match heads::read_size(input) {
        Some(size) => {
            let packet = measure_packet(&input[4..4 + size], pos + 4, room)?;
            match packet {
                MeasuredPacket::Tree { count, dirty, .. } => Ok(MeasuredPacket::Tree {
                    count,
                    next: pos + 4 + size,
                    dirty,
                }),
                MeasuredPacket::Deep { .. } => Ok(MeasuredPacket::Deep {
                    next: pos + 4 + size,
                }),
            }
        }
        None => Err(Fault::Short {
            field: Field::Head,
            at: pos,
        }),
    }
}

// The position after the elements that are accepted. No bundle in them is opened.
fn skim_elements(input: &[u8], pos: usize) -> usize
    requires { pos + length input.now ≤ longest }
    ensures { (base : ℕ) → result ≡ pos + used_by (read_elements base input.now pos) }
{
    let mut rest = input;
    let mut at = pos;
    loop {
        match skim_element(rest, at) {
            Some(size) => {
                rest = &rest[4 + size..];
                at += 4 + size;
            }
            None => return at,
        }
    }
}

// How many bytes an element has, where it is accepted.
fn skim_element(input: &[u8], pos: usize) -> Option<usize>
    requires { pos + length input.now ≤ longest }
    ensures { (base : ℕ) → result ≡ skimmed (read_element base input.now pos) }
{
    let size = heads::read_size(input)?;
    if is_packet(&input[4..4 + size], pos + 4) {
        return Some(size);
    }
    None
}

// Whether a packet is accepted: a bundle is, once its time tag is read.
fn is_packet(input: &[u8], pos: usize) -> bool
    requires { pos + length input.now ≤ longest }
    ensures { (base : ℕ) → result ≡ accepted (read_packet base input.now pos) }
{
    match packet::read_start(input, pos) {
        Ok(first) => is_packet_from(first, input, pos),
        Err(_) => false,
    }
}

// Whether a packet that starts so is accepted.
fn is_packet_from(first: PacketStart, input: &[u8], pos: usize) -> bool
    requires pos_bound { pos + length input.now ≤ longest }
    requires started { Ok first ≡ start_of input.now pos }
    ensures { (base : ℕ) → result ≡ accepted (read_packet base input.now pos) }
{
    match first {
        PacketStart::Message { length: _, used } => {
            measure_message(&input[used..], pos + used, 0, 0).is_ok()
        }
        PacketStart::Bundle { used } => 8 <= input.len() - used,
    }
}
