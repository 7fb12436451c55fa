// The name under which a file is written first: its own name, ".part" and the digits of the process's number.
ghost use Rattle.std.specs.Prelude.{◌≡◌, ◌+◌, ◌-◌, ◌≤◌, length, take};
ghost use Rattle.wire.specs.Wrote.{Filled};
ghost use Rattle.files.specs.Beside.{beside_name, suffix_length};

use wire::copy;

// Puts the name, which `digits` keep apart from those of other processes.
pub fn put_name(path: &[u8], digits: &[u8; 16], out: &mut [u8]) -> usize
    requires { length path.now + 21 ≤ length out.old }
    ensures { Filled (beside_name path.now digits.now) out.old out.new result }
{
    let n = path.len();
    copy(path, out);
    copy(b".part", &mut out[n..]);
    let m = n + 5;
    copy(digits, &mut out[m..]);
    m + 16
}

// The longest name that leaves room in a path for what is put after it.
pub const LONGEST_NAME: usize = 4_074;

// A number for a process's name beside: its own, and after its digits two that tell apart the names that it tries.
pub fn number_with(pid: u32, k: u64) -> u64
    requires { k ≤ 100 }
{
    pid as u64 * 0x100 + k
}

// A number of the system's, which has none that is negative.
pub fn number_of(x: i32) -> u64 {
    u64::try_from(x).unwrap_or(0)
}

// The name that a file beside is to have.
//
// Ruled out: the name of the file beside; one without its last byte.
pub fn target_of(part: &[u8]) -> &[u8]
    ensures { result.now ≡ take (length part.now - suffix_length) part.now }
{
    &part[..part.len().saturating_sub(21)]
}
