// What the programs that run calls and compare share: a slice filled before a call, and what stands in it after.
#![tactic(auto)]

pub mod said; // said.rt: what a run says
pub mod tally; // tally.rt: how often each answer was met

ghost use Rattle.std.specs.Prelude.{◌≡◌, length};
ghost use Rattle.runs.specs.Kept.{Begins, Holds, Kept, TellsWhether};
ghost use Rattle.runs.specs.Sum.{sum_of};

// What every byte of a lent slice is before a call.
pub const FILL: u8 = 0x5A;

// Fills a slice.
//
// Ruled out: a slice whose last byte is as before; one in which the first bytes are filled twice and the others not.
pub fn fill(out: &mut [u8])
    ensures { (length out.new ≡ length out.old) × Kept out.new 0 }
{
    out.fill(FILL)
}

// Whether each byte from `from` on is as `fill` left it.
//
// Ruled out: true where the last byte was changed; false where only a byte before `from` was.
pub fn is_kept(out: &[u8], from: usize) -> bool
    ensures { TellsWhether result (Kept out.now from) }
{
    out.iter().skip(from).all(|b| *b == FILL)
}

// Whether a slice begins with the bytes.
//
// Ruled out: true for a slice that is shorter than they are; false where other bytes stand after them.
pub fn begins(out: &[u8], bytes: &[u8]) -> bool
    ensures { TellsWhether result (Begins bytes.now out.now) }
{
    out.starts_with(bytes)
}

// Whether a slice begins with the bytes, and the rest of it is as `fill` left it.
//
// Ruled out: true where a byte after them was changed; true where the first of them is another.
pub fn holds(out: &[u8], bytes: &[u8]) -> bool
    ensures { TellsWhether result (Holds bytes.now out.now) }
{
    begins(out, bytes) && is_kept(out, bytes.len())
}

// One number for all bytes of a slice, in which each has its part by its value and its place: what a call left, told in short.
//
// Ruled out: the same number whatever the last byte is; the same for two bytes turned round.
pub fn sum_of(bytes: &[u8]) -> u64
    ensures { result ≡ sum_of bytes.now 0 }
{
    let mut sum = 0;
    for b in bytes {
        sum = (sum * 257 + *b as u64) % 4294967291;
    }
    sum
}
