// Shifts must add up (document 02, Ticket 13). No public call: each function is here for what its contract says of the public calls.
ghost use Rattle.std.specs.Prelude.{◌≡◌, ◌+◌, ◌%◌, ◌^◌};
ghost use Rattle.clock.specs.Shift.{shifted, signed_of};

// "by zero changes nothing"
fn by_zero(tag: u64) -> u64
    ensures { result ≡ tag }
{
    crate::shift(tag, 0)
}

// "by x then y equals by x + y modulo 2^64"
fn by_two(tag: u64, x: u64, y: u64) -> u64
    ensures { result ≡ shifted tag ((x + y) % 2 ^ 64) }
{
    crate::shift(crate::shift(tag, x), y)
}

// "by x and then its opposite returns the tag"
fn and_back(tag: u64, x: u64) -> u64
    ensures { result ≡ tag }
{
    crate::shift(crate::shift(tag, x), 0u64.wrapping_sub(x))
}

// "the difference of the shifted tag from the old one is x read as signed"
fn difference_of_shift(tag: u64, x: u64) -> i64
    ensures { result ≡ signed_of x }
{
    crate::difference(crate::shift(tag, x), tag)
}

// "The immediate tag (0, 1) is a plain number here and is shifted like the rest."
fn immediate(x: u64) -> u64
    ensures { result ≡ (x + 1) % 2 ^ 64 }
{
    crate::shift(1, x)
}
