// The order's demands, of the code itself: functions over the public calls, whose contracts are what the theorems speak of. The theorems
// are in crates/calls (demands 1 and 3), crates/standards (demand 2) and crates/given (what the decoders give).
#![tactic(auto)]

mod entry_points; // entry_points.rt: each public call meets what the theorems of demand 1 speak of

ghost use Rattle.demands.specs.There.{Returns};

use refusal::Refusal;
use results::Decoded;

// Writes the packet of a table and reads it back from what was written, at depth 64, as playback does.
//
// No public call: it is here for what its contract says of `encode` and `decode_udp` together. The contract speaks of `Playable` tables
// with room alone. For one whose address has no '/', the answer is 5 after `out` was overwritten, and demand 1 allows no public call that.
//
// Ruled out: a packet that comes back with bytes left over; a text that comes back as other bytes.
fn there_and_back(
    table: &[u8],
    count: usize,
    source: &[u8],
    out: &mut [u8],
    back: &mut [u8],
) -> Result<Decoded, Refusal>
    ensures { Returns table.now count source.now out.old back.old result
        out.new back.new }
{
    let n = encoder::encode(table, count, source, out)?;
    if n <= out.len() {
        return decoder::decode_udp(&out[0..n], back, wire::DEEPEST);
    }
    Ok(Decoded::Waiting)
}
