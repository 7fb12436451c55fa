// The second reading of a whole input.
ghost use Rattle.std.specs.Prelude.{◌≡◌, ◌+◌, ◌≤◌, length};
ghost use Rattle.wire.specs.Limits.{longest};
ghost use Rattle.node.specs.Forest.{size};
ghost use Rattle.node.specs.Records.{stored, TableRoom};
ghost use Rattle.fill.specs.CodeFill.{tree_of, Fills};
ghost use Rattle.framing.specs.Framing.{read_frame, tcp_vec, tcp_vec2, rule_of};
ghost use Rattle.answering.specs.Limits.{forest_of};
ghost use Rattle.decoder.specs.CodeFrames.{frame_packet, packet_cut, Accepted, Fillable};

use crate::{Edition, Framing};
use fill::Element;
use heads::Prefix;
use node::record;

// The second reading of a whole input that is accepted within the depth limit, of `count` records.
pub fn write(framing: Framing, msg: &[u8], table: &mut [u8], depth: usize, count: usize)
    requires { Fillable (rule_of framing depth msg.now) (length msg.now) count table.old }
    ensures { table.new ≡ stored 0 (forest_of (rule_of framing depth msg.now)) table.old }
{
    match framing {
        Framing::Udp => fill::write_packet(msg, 0, 0, table, 0, count),
        Framing::Tcp(edition) => match edition {
            Edition::Rosc => {
                decode_frame(msg, 0, table, 0);
            }
            Edition::Standard => {
                decode_cut(msg, 0, table, 0);
            }
        },
        Framing::TcpVec(edition) => match edition {
            Edition::Rosc => decode_frames(msg, table),
            Edition::Standard => decode_cuts(msg, table, depth, count),
        },
    }
}

// The second reading of a frame of edition 1, which stands at `base` of the call's input.
fn decode_frame(input: &[u8], base: usize, table: &mut [u8], index: usize) -> Option<Element>
    requires input_bound { base + length input.now ≤ longest }
    requires table_room { TableRoom (tree_of (frame_packet (read_frame base input.now))) index table.old }
    ensures { Fills (frame_packet (read_frame base input.now)) 0 index table.old result table.new }
{
    match heads::read_prefix(input) {
        Prefix::Ready => fill::decode_packet(&input[4..], base, 4, table, index),
        Prefix::Waiting => None,
        Prefix::RunsOut => None,
    }
}

// The second reading of a list of frames of edition 1.
fn decode_frames(msg: &[u8], table: &mut [u8])
    requires msg_len_bound { length msg.now ≤ longest }
    requires accepted { Accepted (tcp_vec msg.now) }
    requires table_room { TableRoom (forest_of (tcp_vec msg.now)) 0 table.old }
    ensures { table.new ≡ stored 0 (forest_of (tcp_vec msg.now)) table.old }
{
    let mut at = 0;
    let mut count = 0;
    while at < msg.len() {
        let later = &mut table[record::RECORD_SIZE * count..];
        match decode_frame(&msg[at..], at, later, count) {
            Some(packet) => {
                count += packet.count;
                at += packet.next;
            }
            None => return,
        }
    }
}

// The second reading of a frame of edition 2, which stands at `base` of the call's input. What is left in it was judged before.
fn decode_cut(input: &[u8], base: usize, table: &mut [u8], index: usize) -> Option<Element>
    requires input_bound { base + length input.now ≤ longest }
    requires table_room { TableRoom (tree_of (packet_cut base input.now)) index table.old }
    ensures { Fills (packet_cut base input.now) 0 index table.old result table.new }
{
    match heads::read_length(input) {
        Ok(Some(n)) => fill::decode_packet(&input[4..4 + n], base, 4, table, index),
        Ok(None) => None,
        Err(_) => None,
    }
}

// The second reading of a list of frames of edition 2: those that were counted, and none after them.
fn decode_cuts(msg: &[u8], table: &mut [u8], depth: usize, count: usize)
    requires msg_len_bound { length msg.now ≤ longest }
    requires msg_value { size (forest_of (tcp_vec2 depth msg.now)) ≡ count }
    requires table_room { TableRoom (forest_of (tcp_vec2 depth msg.now)) 0 table.old }
    ensures { table.new ≡ stored 0 (forest_of (tcp_vec2 depth msg.now)) table.old }
{
    let mut from = 0;
    let mut written = 0;
    while written < count {
        let later = &mut table[record::RECORD_SIZE * written..];
        match decode_cut(&msg[from..], from, later, written) {
            Some(packet) => {
                written += packet.count;
                from += packet.next;
            }
            None => return,
        }
    }
}
