// What a packet starts with. Packets, bundles and elements are definitions here (specs/Packet.antt): `measure` and `fill` read by them.
#![tactic(auto)]

ghost use Rattle.std.specs.Prelude.{◌≡◌, Ok, ◌+◌, ◌≤◌, length};
ghost use Rattle.wire.specs.Limits.{longest};
ghost use Rattle.packet.specs.CodeStart.{StartAccepted};
ghost use Rattle.packet.specs.FirstText.{start_of};

use node::tags::MESSAGE;
use refusal::{Fault, Field};

// What a packet starts with; `used` bytes are the first text's.
#[derive(Clone, Copy, Debug, PartialEq, Eq)]
pub enum PacketStart {
    // An address of `length` bytes.
    Message { length: usize, used: usize },
    // "#bundle".
    Bundle { used: usize },
}

// The first text of a packet decides what it is.
//
// Ruled out: an empty packet refused for a text that runs out; what follows "#bundle" read from its NUL on.
pub fn read_start(input: &[u8], pos: usize) -> Result<PacketStart, Fault>
    requires { pos + length input.now ≤ longest }
    ensures { result ≡ start_of input.now pos }
{
    if input.len() == 0 {
        return Err(Fault::Empty);
    }
    match text::read_osc_string(input, pos) {
        Ok(first) => {
            let used = first.used;
            if input[0] == MESSAGE {
                return Ok(PacketStart::Message {
                    length: first.length,
                    used,
                });
            }
            if &input[..first.length] == b"#bundle".as_slice() {
                return Ok(PacketStart::Bundle { used });
            }
            Err(Fault::BadStart)
        }
        Err(lack) => Err(text::fault_in(Field::Address, pos, lack)),
    }
}

// The same of a packet that was accepted: only its first byte is looked at, and where its first text ends.
//
// Ruled out: the start of a bundle for a message; what follows "#bundle" read from its NUL on.
pub fn find_start(input: &[u8], pos: usize) -> PacketStart
    requires input_bound { pos + length input.now ≤ longest }
    requires start_accepted { StartAccepted (start_of input.now pos) }
    ensures { Ok result ≡ start_of input.now pos }
{
    let first = text::find_osc_string(input, pos);
    if input[0] == MESSAGE {
        return PacketStart::Message {
            length: first.length,
            used: first.used,
        };
    }
    PacketStart::Bundle { used: first.used }
}
