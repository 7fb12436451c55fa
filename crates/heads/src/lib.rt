// What stands at the front of a type text, of an element of a bundle, and of a frame of a TCP stream; the own numbers of packets.
#![tactic(auto)]

ghost use Rattle.std.specs.Prelude.{◌≡◌, true, ◌≤◌, length};
ghost use Rattle.wire.specs.Limits.{longest};
ghost use Rattle.utf8.specs.Derive.{utf8};
ghost use Rattle.heads.specs.Heads.{tags_in, size_of, prefix_of, length_of, message_item, bundle_item};

use node::record::Item;
use node::tags::{BUNDLE, MESSAGE};
use wire::be_u32;

// The prefix of a frame.
#[derive(Clone, Copy, Debug, PartialEq, Eq)]
pub enum Prefix {
    // The length is at most that of the input, prefix included.
    Ready,
    // The length is greater.
    Waiting,
    // There are fewer than 4 bytes.
    RunsOut,
}

// What is wrong with the length of a frame of edition 2.
#[derive(Clone, Copy, Debug, PartialEq, Eq)]
pub enum BadLength {
    // It is over 65,531.
    Over,
    // It is no multiple of 4.
    Odd,
}

// The tags of a type text: its first character is skipped, whatever it is. It is almost always a comma, so that is asked first.
//
// Ruled out: a type text without a comma rejected; only a byte of a longer first character skipped.
pub fn tags_in(types: &[u8]) -> &[u8]
    requires { utf8 types.now ≡ true }
    ensures { result.now ≡ tags_in types.now }
{
    if types.len() == 0 {
        return types;
    }
    if types[0] == b',' {
        return &types[1..];
    }
    let skipped = utf8::lead(types[0]);
    &types[skipped..]
}

// The size of an element, where that many bytes follow it; none where there are fewer.
//
// Ruled out: an element refused that ends where its bundle ends; a size that counts its own four bytes.
pub fn read_size(input: &[u8]) -> Option<usize>
    ensures { result ≡ size_of input.now }
{
    if input.len() < 4 {
        return None;
    }
    let size = be_u32(input, 0) as usize;
    if input.len() - 4 < size {
        return None;
    }
    Some(size)
}

// The length of a frame against all of the input, prefix included. It cuts nothing.
//
// Ruled out: Waiting by a length that is compared with what follows the prefix; Waiting by a length that is that of the input.
pub fn read_prefix(input: &[u8]) -> Prefix
    ensures { result ≡ prefix_of input.now }
{
    if input.len() < 4 {
        return Prefix::RunsOut;
    }
    if input.len() < be_u32(input, 0) as usize {
        return Prefix::Waiting;
    }
    Prefix::Ready
}

// The length of a frame of edition 2, which cuts its packet, where so many bytes follow it; none where the frame is not all there. What is
// wrong with the length is told before there are bytes for it.
//
// Ruled out: Waiting for a length of 65,532, which no stream can hold; a length of 3 refused where there are 3 bytes.
pub fn read_length(input: &[u8]) -> Result<Option<usize>, BadLength>
    ensures { result ≡ length_of input.now }
{
    if input.len() < 4 {
        return Ok(None);
    }
    let n = be_u32(input, 0) as usize;
    if wire::LONGEST_FRAMED < n {
        return Err(BadLength::Over);
    }
    if n % 4 != 0 {
        return Err(BadLength::Odd);
    }
    if input.len() - 4 < n {
        return Ok(None);
    }
    Ok(Some(n))
}

// The own numbers of a message whose address of `n` bytes stands at `offset`.
//
// Ruled out: the address's length as its offset; the kind of a bundle.
pub fn message_item(offset: usize, n: usize) -> Item
    requires { (offset ≤ longest) × (n ≤ longest) }
    ensures { result ≡ message_item offset n }
{
    Item {
        kind: MESSAGE,
        a: offset as u32,
        b: n as u32,
        start: offset as u32,
    }
}

// The own numbers of a bundle whose "#bundle" stands at offset `start`, and whose time tag `input` starts with.
//
// Ruled out: the seconds as the fractional part; the kind of a message.
pub fn bundle_item(start: usize, input: &[u8]) -> Item
    requires { (start ≤ longest) × (8 ≤ length input.now) }
    ensures { result ≡ bundle_item start input.now }
{
    Item {
        kind: BUNDLE,
        a: be_u32(input, 0),
        b: be_u32(input, 4),
        start: start as u32,
    }
}
