// How packets stand in an input: the two ways to cut a TCP stream, and the framings over them. Decoders and encoders name one.
#![tactic(auto)]

// How a TCP stream is cut into packets.
#[derive(Clone, Copy, Debug, PartialEq, Eq)]
pub enum Edition {
    // As rosc reads and writes it: a length cuts nothing, and bundles are written without one.
    Rosc,
    // As OSC 1.0 has it: every packet stands after its length, which cuts it (Ticket 1).
    Standard,
}

// How packets stand in an input.
#[derive(Clone, Copy, Debug, PartialEq, Eq)]
pub enum Framing {
    // One packet is all of the input.
    Udp,
    // The first packet of a TCP stream.
    Tcp(Edition),
    // The packets of a TCP stream, one after another.
    TcpVec(Edition),
}
