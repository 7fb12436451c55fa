// A name as it is shown: whatever its bytes are, one line stays one line.
ghost use Rattle.std.specs.Prelude.{◌≡◌, map, ◌≤◌, length};
ghost use Rattle.wire.specs.Wrote.{Filled};
ghost use Rattle.files.specs.Shown.{shown_byte};

// What is shown of a byte.
#[tactic(auto, unfolding(crate::specs::Shown::shown_byte))]
fn shown_byte(b: u8) -> u8
    ensures { result ≡ shown_byte b }
{
    if b < 32 || b == 127 { b'?' } else { b }
}

// Puts a name as it is shown at the start of `out`, and answers how long it is.
//
// Ruled out: a line's end, or the first byte of an escape, within a name; a byte of the name left out.
pub fn show(name: &[u8], out: &mut [u8]) -> usize
    requires { length name.now ≤ length out.old }
    ensures { Filled (map shown_byte name.now) out.old out.new result }
{
    for (i, b) in name.iter().enumerate() {
        out[i] = shown_byte(*b);
    }
    name.len()
}
