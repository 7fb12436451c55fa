// What the words of the command shift mean.
ghost use Rattle.std.specs.Prelude.{◌≡◌};
ghost use Rattle.tool_shifts.specs.Asked.{shift_asked};

use amounts::amount_of;
use troubles::{Blame, Trouble};

// What shift is asked, of whose words there are `count`, and whose word 4 is the amount.
//
// Ruled out: the opposite of the amount; a word too many.
pub fn shift_asked(count: usize, word: &[u8]) -> Result<u64, Blame>
    ensures { result ≡ shift_asked count word.now }
{
    if count != 5 {
        return Err(Trouble::ShiftWords.at(0));
    }
    amount_of(word).ok_or(Trouble::NoAmount.at(4))
}
