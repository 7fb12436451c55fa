// The C boundary: each public call of `osc`, exported for C and C++ under the same name and with the same clauses; what a clause rules out is
// said there. include/osc.h declares them. The kit builds a crate as a library or as a static library, so that what is exported stands here,
// and what Rattle crates use there.
#![tactic(auto)]

ghost use Rattle.std.specs.Prelude.{◌≡◌};
ghost use Rattle.edition.specs.declared.Edition.TheVariants.{Rosc, Standard};
ghost use Rattle.edition.specs.declared.Framing.TheVariants.{Udp, Tcp, TcpVec};
ghost use Rattle.wire.specs.Pad.{pad_of};
ghost use Rattle.values.specs.Look.{look_at, started_at};
ghost use Rattle.encoder.specs.Outcome.{unframed, prefixed, framed_by};
ghost use Rattle.cues.specs.Cues.{cue_in};
ghost use Rattle.clock.specs.Clock.{tag_for, unix_for};
ghost use Rattle.clock.specs.Shift.{shifted, difference_of};
ghost use Rattle.clock.specs.declared.Rule.TheVariants as rule;
ghost use Rattle.told.specs.Told.{answer_of};
ghost use Rattle.told.specs.Times.{tagged_number, tagged_beside, unix_number, unix_beside};
ghost use Rattle.told.specs.Answers.{padded_number, looked_told, started_told, cue_told_as, cue_told, cue_beside};
ghost use Rattle.version.specs.Version.{version_number};
ghost use Rattle.apart.specs.Boundary.{osc_decode, osc_read_portion, osc_index_step, osc_encode, osc_encode_string, CMeets, check_number};
ghost use Rattle.apart.specs.Boundary.{osc_shift_table};

#[unsafe(no_mangle)]
pub extern "C" fn osc_decode_udp(msg: &[u8], table: &mut [u8], depth: u64, more: &mut u64) -> u64
    ensures { CMeets (osc_decode Udp msg.now table.old depth) result more.new table.new }
{
    osc::osc_decode_udp(msg, table, depth, more)
}

#[unsafe(no_mangle)]
pub extern "C" fn osc_decode_tcp(msg: &[u8], table: &mut [u8], depth: u64, more: &mut u64) -> u64
    ensures { CMeets (osc_decode (Tcp Rosc) msg.now table.old depth) result more.new table.new }
{
    osc::osc_decode_tcp(msg, table, depth, more)
}

#[unsafe(no_mangle)]
pub extern "C" fn osc_decode_tcp_vec(
    msg: &[u8],
    table: &mut [u8],
    depth: u64,
    more: &mut u64,
) -> u64
    ensures { CMeets (osc_decode (TcpVec Rosc) msg.now table.old depth) result more.new table.new }
{
    osc::osc_decode_tcp_vec(msg, table, depth, more)
}

#[unsafe(no_mangle)]
pub extern "C" fn osc_decode_tcp2(msg: &[u8], table: &mut [u8], depth: u64, more: &mut u64) -> u64
    ensures { CMeets (osc_decode (Tcp Standard) msg.now table.old depth) result more.new table.new }
{
    osc::osc_decode_tcp2(msg, table, depth, more)
}

#[unsafe(no_mangle)]
pub extern "C" fn osc_decode_tcp_vec2(
    msg: &[u8],
    table: &mut [u8],
    depth: u64,
    more: &mut u64,
) -> u64
    ensures { CMeets (osc_decode (TcpVec Standard) msg.now table.old depth) result more.new table.new }
{
    osc::osc_decode_tcp_vec2(msg, table, depth, more)
}

#[unsafe(no_mangle)]
pub extern "C" fn osc_read_portion(
    bytes: &[u8],
    table: &mut [u8],
    depth: u64,
    more: &mut u64,
) -> u64
    ensures { CMeets (osc_read_portion bytes.now table.old depth) result more.new table.new }
{
    osc::osc_read_portion(bytes, table, depth, more)
}

#[unsafe(no_mangle)]
pub extern "C" fn osc_index_step(bytes: &[u8], base: u64, out: &mut [u8], more: &mut u64) -> u64
    ensures { CMeets (osc_index_step bytes.now base out.old) result more.new out.new }
{
    osc::osc_index_step(bytes, base, out, more)
}

#[unsafe(no_mangle)]
pub extern "C" fn osc_index_check_step(fresh: &[u8], given: &[u8], from: u64) -> u64
    ensures { result ≡ check_number fresh.now given.now from }
{
    osc::osc_index_check_step(fresh, given, from)
}

#[unsafe(no_mangle)]
pub extern "C" fn osc_cue(index: &[u8], k: u64, offset: &mut u64) -> u64
    ensures { (result ≡ answer_of (cue_told (cue_told_as (cue_in index.now k))))
        × (offset.new ≡ cue_beside (cue_told_as (cue_in index.now k))) }
{
    osc::osc_cue(index, k, offset)
}

#[unsafe(no_mangle)]
pub extern "C" fn osc_encode(table: &[u8], count: u64, source: &[u8], out: &mut [u8]) -> u64
    ensures { CMeets (osc_encode unframed table.now count source.now out.old) result 0 out.new }
{
    osc::osc_encode(table, count, source, out)
}

#[unsafe(no_mangle)]
pub extern "C" fn osc_encode_tcp(table: &[u8], count: u64, source: &[u8], out: &mut [u8]) -> u64
    ensures { CMeets (osc_encode prefixed table.now count source.now out.old) result 0 out.new }
{
    osc::osc_encode_tcp(table, count, source, out)
}

#[unsafe(no_mangle)]
pub extern "C" fn osc_encode_tcp2(table: &[u8], count: u64, source: &[u8], out: &mut [u8]) -> u64
    ensures { CMeets (osc_encode (framed_by Standard) table.now count source.now out.old)
        result 0 out.new }
{
    osc::osc_encode_tcp2(table, count, source, out)
}

#[unsafe(no_mangle)]
pub extern "C" fn osc_encode_string(text: &[u8], out: &mut [u8]) -> u64
    ensures { CMeets (osc_encode_string text.now out.old) result 0 out.new }
{
    osc::osc_encode_string(text, out)
}

#[unsafe(no_mangle)]
pub extern "C" fn osc_shift_table(table: &mut [u8], count: u64, by: u64) -> u64
    ensures { CMeets (osc_shift_table table.old count by) result 0 table.new }
{
    osc::osc_shift_table(table, count, by)
}

#[unsafe(no_mangle)]
pub extern "C" fn osc_pad(pos: u64) -> u64
    ensures { result ≡ padded_number (pad_of pos) }
{
    osc::osc_pad(pos)
}

#[unsafe(no_mangle)]
pub extern "C" fn osc_look(table: &[u8], index: u64) -> u64
    ensures { result ≡ answer_of (looked_told (look_at table.now index)) }
{
    osc::osc_look(table, index)
}

#[unsafe(no_mangle)]
pub extern "C" fn osc_start(table: &[u8], index: u64) -> u64
    ensures { result ≡ answer_of (started_told (started_at table.now index)) }
{
    osc::osc_start(table, index)
}

#[unsafe(no_mangle)]
pub extern "C" fn osc_version() -> u64
    ensures { result ≡ version_number }
{
    osc::osc_version()
}

#[unsafe(no_mangle)]
pub extern "C" fn osc_tag_a(seconds: i64, nanos: u64, tag: &mut u64) -> u64
    ensures { (result ≡ tagged_number (tag_for rule.A seconds nanos)) × (tag.new ≡ tagged_beside (tag_for rule.A seconds nanos)) }
{
    osc::osc_tag_a(seconds, nanos, tag)
}

#[unsafe(no_mangle)]
pub extern "C" fn osc_tag_b(seconds: i64, nanos: u64, tag: &mut u64) -> u64
    ensures { (result ≡ tagged_number (tag_for rule.B seconds nanos)) × (tag.new ≡ tagged_beside (tag_for rule.B seconds nanos)) }
{
    osc::osc_tag_b(seconds, nanos, tag)
}

#[unsafe(no_mangle)]
pub extern "C" fn osc_unix_a(tag: u64, seconds: &mut i64) -> u64
    ensures { (result ≡ unix_number (unix_for rule.A tag)) × (seconds.new ≡ unix_beside (unix_for rule.A tag)) }
{
    osc::osc_unix_a(tag, seconds)
}

#[unsafe(no_mangle)]
pub extern "C" fn osc_unix_b(tag: u64, seconds: &mut i64) -> u64
    ensures { (result ≡ unix_number (unix_for rule.B tag)) × (seconds.new ≡ unix_beside (unix_for rule.B tag)) }
{
    osc::osc_unix_b(tag, seconds)
}

#[unsafe(no_mangle)]
pub extern "C" fn osc_shift(tag: u64, by: u64) -> u64
    ensures { result ≡ shifted tag by }
{
    osc::osc_shift(tag, by)
}

#[unsafe(no_mangle)]
pub extern "C" fn osc_difference(tag: u64, old: u64) -> i64
    ensures { result ≡ difference_of tag old }
{
    osc::osc_difference(tag, old)
}
