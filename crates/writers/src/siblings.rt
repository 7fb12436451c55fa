// The nodes that stand side by side in a table.
ghost use Rattle.std.specs.Prelude.{◌≡◌, ◌-◌};
ghost use Rattle.std.specs.Iterator.{at_most};
ghost use Rattle.writers.specs.Siblings.{Advances, NextOf};

use node::record::{END, field_at};

// The nodes of the records from `at` to `hi - 1`: the number of each with its end, where the next one begins.
#[derive(Drop)]
pub struct Siblings<'a> {
    table: &'a [u8],
    at: usize,
    hi: usize,
    ghost advances: { Advances table.now at hi },
}

impl<'a> Siblings<'a> {
    // The nodes of the records lo to hi - 1, each of which ends after itself.
    //
    // Ruled out: an iterator over another table; one that begins behind the first record.
    pub fn new(table: &'a [u8], lo: usize, hi: usize) -> Siblings<'a>
        requires { Advances table.now lo hi }
        ensures { (result.table.now ≡ table.now) × (result.at ≡ lo) × (result.hi ≡ hi) }
    {
        Siblings { table, at: lo, hi }
    }
}

impl<'a> Iterator for Siblings<'a> {
    type Item = (usize, usize);

    ghost next_gives = { λ s r t. NextOf s.table.now s.at s.hi r t.table.now t.at t.hi };

    ghost remaining = { λ s. at_most (s.hi - s.at) };

    // The first node that is left.
    //
    // Ruled out: the first node that it contains in place of the next one; an end that is another record's.
    fn next(&mut self) -> Option<(usize, usize)> {
        let at = self.at;
        if self.hi <= at {
            return None;
        }
        let end = field_at(self.table, at, END) as usize;
        self.at = end;
        Some((at, end))
    }
}
