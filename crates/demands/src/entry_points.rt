// Each public call once more, with what demand 1's theorems speak of as its contract: `Meets` (crates/calls/specs/Calls.antt). So the
// theorems are about the calls and not about a copy of their contracts: where a call's own contract no longer gives `Meets`, the function
// over it is refused.
ghost use Rattle.edition.specs.declared.Framing.TheVariants.{Udp, Tcp, TcpVec};
ghost use Rattle.calls.specs.Calls as call;
ghost use Rattle.calls.specs.Calls.{Meets};

use clock::{OutOfRange, Rule, UnixTime};
use edition::Edition;
use refusal::Refusal;
use results::{CueAt, Decoded, IndexDiffers, Indexed, Portion};
use values::value::OscType;

fn decode_udp(msg: &[u8], table: &mut [u8], depth: usize) -> Result<Decoded, Refusal>
    ensures { Meets (call.decode Udp msg.now table.old depth) result table.new }
{
    decoder::decode_udp(msg, table, depth)
}

fn decode_tcp(
    edition: Edition,
    msg: &[u8],
    table: &mut [u8],
    depth: usize,
) -> Result<Decoded, Refusal>
    ensures { Meets (call.decode (Tcp edition) msg.now table.old depth) result table.new }
{
    decoder::decode_tcp(edition, msg, table, depth)
}

fn decode_tcp_vec(
    edition: Edition,
    msg: &[u8],
    table: &mut [u8],
    depth: usize,
) -> Result<Decoded, Refusal>
    ensures { Meets (call.decode (TcpVec edition) msg.now table.old depth) result table.new }
{
    decoder::decode_tcp_vec(edition, msg, table, depth)
}

fn read_portion(bytes: &[u8], table: &mut [u8], depth: usize) -> Result<Portion, Refusal>
    ensures { Meets (call.read_portion bytes.now table.old depth) result table.new }
{
    portions::read_portion(bytes, table, depth)
}

fn index_step(bytes: &[u8], base: u64, out: &mut [u8]) -> Result<Indexed, Refusal>
    ensures { Meets (call.index_step bytes.now base out.old) result out.new }
{
    cues::index_step(bytes, base, out)
}

fn compare(fresh: &[u8], index: &[u8]) -> Result<usize, IndexDiffers>
    ensures { Meets (call.compare fresh.now index.now) result tt }
{
    cues::compare(fresh, index)
}

fn cue_at(index: &[u8], k: u64) -> Result<CueAt, Refusal>
    ensures { Meets (call.cue_at index.now k) result tt }
{
    cues::cue_at(index, k)
}

fn encode(table: &[u8], count: usize, source: &[u8], out: &mut [u8]) -> Result<usize, Refusal>
    ensures { Meets (call.encode table.now count source.now out.old) result out.new }
{
    encoder::encode(table, count, source, out)
}

fn encode_tcp(
    edition: Edition,
    table: &[u8],
    count: usize,
    source: &[u8],
    out: &mut [u8],
) -> Result<usize, Refusal>
    ensures { Meets (call.encode_tcp edition table.now count source.now out.old) result
        out.new }
{
    encoder::encode_tcp(edition, table, count, source, out)
}

fn encode_string(text: &[u8], out: &mut [u8]) -> Result<usize, Refusal>
    ensures { Meets (call.encode_string text.now out.old) result out.new }
{
    encoder::encode_string(text, out)
}

fn shift_table(table: &mut [u8], count: usize, by: u64) -> Result<usize, Refusal>
    ensures { Meets (call.shift_table table.old count by) result table.new }
{
    shifts::shift_table(table, count, by)
}

fn pad(pos: u64) -> Result<u64, Refusal>
    ensures { Meets (call.pad pos) result tt }
{
    wire::pad(pos)
}

fn look(table: &[u8], index: usize) -> Result<OscType, Refusal>
    ensures { Meets (call.look table.now index) result tt }
{
    values::look::look(table, index)
}

fn start_of(table: &[u8], index: usize) -> Result<u32, Refusal>
    ensures { Meets (call.start_of table.now index) result tt }
{
    values::look::start_of(table, index)
}

fn text_of<'a>(value: OscType, packet: &'a [u8], label: &'a [u8]) -> &'a [u8]
    ensures { Meets (call.text_of value packet.now label.now) result.now tt }
{
    values::look::text_of(value, packet, label)
}

fn tag_of(rule: Rule, seconds: i64, nanos: u64) -> Result<u64, OutOfRange>
    ensures { Meets (call.tag_of rule seconds nanos) result tt }
{
    clock::tag_of(rule, seconds, nanos)
}

fn unix_of(rule: Rule, tag: u64) -> Result<UnixTime, OutOfRange>
    ensures { Meets (call.unix_of rule tag) result tt }
{
    clock::unix_of(rule, tag)
}

fn shift(tag: u64, by: u64) -> u64
    ensures { Meets (call.shift tag by) result tt }
{
    clock::shift(tag, by)
}

fn difference(tag: u64, old: u64) -> i64
    ensures { Meets (call.difference tag old) result tt }
{
    clock::difference(tag, old)
}
