// How many packets a table holds: each is a record at the root, and the next begins where it ends.
ghost use Rattle.std.specs.Prelude.{◌≤◌};
ghost use Rattle.node.specs.Records.{capacity};
ghost use Rattle.outcomes.specs.CodeRoots.{CountsRoots};

use node::record::{END, field_at};

// The number of the roots among the first `count` records.
pub fn root_count(table: &[u8], count: usize) -> usize
    requires { count ≤ capacity table.now }
    ensures { CountsRoots table.now count result }
{
    let mut i = 0;
    let mut n = 0;
    while i < count {
        let end = field_at(table, i, END) as usize;
        if end <= i {
            return n;
        }
        i = end;
        n += 1;
    }
    n
}
