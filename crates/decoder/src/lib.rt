// Packets, bundles and whole inputs (decoder.rs). A packet is read twice: first it is measured, and nothing is written;
// then, where the table has room, its records are written.
#![tactic(auto)]

mod frames; // frames.rt: the second reading of a whole input

ghost use Rattle.framing.specs.Framing.{udp, rule_of};
ghost use Rattle.edition.specs.declared.Framing.TheVariants.{Tcp, TcpVec};
ghost use Rattle.answering.specs.Limits.{Decodes};

pub use edition::{Edition, Framing};
use node::record;
use refusal::Refusal;
pub use results::Decoded;

// Common MTU size for ethernet.
pub const MTU: usize = 1536;

// Reads `msg` by its framing, and writes the records of its packets to `table`.
//
// Ruled out: a record count that is invented; records left by a refusal.
pub fn decode(
    framing: Framing,
    msg: &[u8],
    table: &mut [u8],
    depth: usize,
) -> Result<Decoded, Refusal>
    ensures { Decodes (rule_of framing depth) msg.now table.old depth result table.new }
{
    let answer = answering::answer(framing, msg, record::capacity_of(table), depth)?;
    match answer {
        Decoded::Packets { count, .. } => frames::write(framing, msg, table, depth, count),
        Decoded::Waiting => {}
        Decoded::Stopped { count, .. } => frames::write(framing, msg, table, depth, count),
    }
    Ok(answer)
}

// Reads a packet from all of `msg`, a UDP packet, and writes its records to `table`.
//
// Ruled out: a bundle that ends quietly where the table is full; a byte of the table changed by a refusal.
pub fn decode_udp(msg: &[u8], table: &mut [u8], depth: usize) -> Result<Decoded, Refusal>
    ensures { Decodes udp msg.now table.old depth result table.new }
{
    decode(Framing::Udp, msg, table, depth)
}

// Reads the first packet of `msg`, bytes of a TCP stream. In edition 1 a packet is read from everything after its length; in edition 2 its
// length cuts it, and must leave nothing.
//
// Ruled out: in edition 1 the packet cut at its length, and Waiting by a length that is compared with what follows the prefix; in edition 2
// a packet that reads past its frame, and 21 for three bytes, which wait.
pub fn decode_tcp(
    edition: Edition,
    msg: &[u8],
    table: &mut [u8],
    depth: usize,
) -> Result<Decoded, Refusal>
    ensures { Decodes (rule_of (Tcp edition) depth) msg.now table.old depth result table.new }
{
    decode(Framing::Tcp(edition), msg, table, depth)
}

// Reads the packets of `msg`, bytes of a TCP stream, one after another, until nothing is left or one waits. In edition 1 a refused frame
// refuses the call; in edition 2 it ends the list, and the answer says where and why.
//
// Ruled out: the first packet repeated; in edition 1, 9 of an early packet where a later one is refused for any of 2 to 8; in edition 2 the
// packets before a refused frame kept back, and a table that a full one has changed.
pub fn decode_tcp_vec(
    edition: Edition,
    msg: &[u8],
    table: &mut [u8],
    depth: usize,
) -> Result<Decoded, Refusal>
    ensures { Decodes (rule_of (TcpVec edition) depth) msg.now table.old depth result table.new }
{
    decode(Framing::TcpVec(edition), msg, table, depth)
}
