// The bytes of a buffer that are kept while a file is read on.
ghost use Rattle.std.specs.Prelude.{◌≤◌, length};
ghost use Rattle.walks.specs.CodeWalks.{RestKept};

// Moves the bytes from `from` up to `to` to the front of the buffer, where a read goes on after them, and answers how many they are.
//
// Ruled out: the bytes from one later on; those that stood at the front before.
pub fn keep_rest(buf: &mut [u8], from: usize, to: usize) -> usize
    requires { (from ≤ to) × (to ≤ length buf.old) }
    ensures { RestKept from to buf.old buf.new result }
{
    buf.copy_within(from..to, 0);
    to - from
}
