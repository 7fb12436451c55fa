// A stream that comes in portions: a step reads the frames that are whole, and says from where on the bytes are to be kept.
#![tactic(auto)]

ghost use Rattle.portions.specs.Portions.{Steps};

use edition::Edition;
use refusal::Refusal;
use results::Decoded;
pub use results::Portion;

// Reads the frames of `bytes`, what was kept of a stream of edition 2 and what came after it, and writes the records of their packets to
// `table`.
//
// Ruled out: a frame that is not all there dropped; the bytes of a frame that was read kept, so that it is read again.
pub fn read_portion(bytes: &[u8], table: &mut [u8], depth: usize) -> Result<Portion, Refusal>
    ensures { Steps bytes.now table.old depth result table.new }
{
    let length = bytes.len();
    let decoded = decoder::decode_tcp_vec(Edition::Standard, bytes, table, depth)?;
    match decoded {
        Decoded::Packets { count, left, dirty } => Ok(Portion::Read {
            count,
            used: length - left,
            dirty,
        }),
        Decoded::Waiting => Ok(Portion::Read {
            count: 0,
            used: 0,
            dirty: 0,
        }),
        Decoded::Stopped {
            count,
            left: _,
            dirty,
            refusal,
            frame,
        } => Ok(Portion::Ended {
            count,
            used: frame,
            dirty,
            refusal,
        }),
    }
}
