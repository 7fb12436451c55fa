// What Ticket 7 demands of the public calls together. No public call: the function is here for what its contract says.
ghost use Rattle.std.specs.Prelude.{◌≡◌};
ghost use Rattle.clock.specs.Clock.{returned};

use crate::{OutOfRange, Rule, UnixTime};

// "a nanosecond value returns unchanged", by both rules, at every second that is allowed.
//
// Ruled out: a time that comes back a nanosecond later; a time that has a tag and comes back refused.
fn there_and_back(rule: Rule, seconds: i64, nanos: u64) -> Result<UnixTime, OutOfRange>
    ensures { result ≡ returned rule seconds nanos }
{
    let tag = crate::tag_of(rule, seconds, nanos)?;
    crate::unix_of(rule, tag)
}
