// What stands beside a word in a table.
ghost use Rattle.std.specs.Prelude.{◌≡◌};
ghost use Rattle.words.specs.Tables.{beside};

// What stands beside a word in a table, where the word is there.
//
// Ruled out: what stands beside a word that only begins so; what stands beside the second of two that are the same.
pub fn beside<T: Copy>(table: &[(&[u8], T)], word: &[u8]) -> Option<T>
    ensures { result ≡ beside word.now table.now }
{
    for (name, value) in table {
        if *name == word {
            return Some(*value);
        }
    }
    None
}
