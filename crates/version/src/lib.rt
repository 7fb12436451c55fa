// The version of the library and of the program: said here for all crates, and nowhere else in them.
#![tactic(auto)]

ghost use Rattle.std.specs.Prelude.{◌≡◌};
ghost use Rattle.version.specs.Version.{packed, version_number};

pub const MAJOR: u16 = 0;

pub const MINOR: u16 = 16;

pub const PATCH: u16 = 2;

// Three parts as one number: the major in bits 32 to 47, the minor in bits 16 to 31, the patch in bits 0 to 15.
//
// Ruled out: minor and patch exchanged; a part in the bits of the next.
fn pack(major: u16, minor: u16, patch: u16) -> u64
    ensures { result ≡ packed major minor patch }
{
    major as u64 * 0x1_0000_0000 + minor as u64 * 0x1_0000 + patch as u64
}

// The version as one number.
//
// Ruled out: the number of another version; the parts in another order.
pub fn number() -> u64
    ensures { result ≡ version_number }
{
    pack(MAJOR, MINOR, PATCH)
}
