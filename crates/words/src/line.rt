// A line cut into words, each of which ends with a space.
ghost use Rattle.std.specs.Prelude.{◌≡◌, ◌+◌, ◌≤◌, ◌==◌, length, take, drop};
ghost use Rattle.std.specs.List.{position};
ghost use Rattle.words.specs.Tables.{until_byte, words_in, place_in};

// The first `n` bytes; all where there are fewer.
//
// Ruled out: nothing, and all of them, where there are more.
pub fn front(bytes: &[u8], n: usize) -> &[u8]
    ensures { result.now ≡ take n bytes.now }
{
    &bytes[..n.min(bytes.len())]
}

// The place of the first `byte`.
fn first(s: &[u8], byte: u8) -> Option<usize>
    ensures { result ≡ position (λ x. x == byte) s.now }
{
    s.iter().position(|b| *b == byte)
}

// Where the first `byte` from `from` on stands; the end where there is none.
//
// Ruled out: a place before `from`; one past the end; the second such byte.
pub fn until(s: &[u8], from: usize, byte: u8) -> usize
    requires { from ≤ length s.now }
    ensures { (from ≤ result) × (result ≤ length s.now) × (result ≡ from + length (until_byte byte (drop from s.now))) }
{
    let rest = &s[from..];
    from + first(rest, byte).unwrap_or(rest.len())
}

// What stands after the byte at `at`.
pub fn after(s: &[u8], at: usize) -> &[u8] {
    if at < s.len() {
        return &s[at + 1..];
    }
    &s[..0]
}

// Where the word after the one at `from` begins.
fn next(s: &[u8], from: usize) -> usize
    requires { from ≤ length s.now }
    ensures { result ≤ length s.now }
{
    let end = until(s, from, b' ');
    if end < s.len() {
        return end + 1;
    }
    end
}

// Where word `n` begins, the first being word 0; the end where there are fewer.
//
// Ruled out: a place past the end.
pub fn start(s: &[u8], n: usize) -> usize
    ensures { result ≤ length s.now }
{
    let mut at = 0;
    for _ in 0..n {
        at = next(s, at);
    }
    at
}

// Word `n`, without its space.
pub fn word(s: &[u8], n: usize) -> &[u8] {
    let from = start(s, n);
    let to = until(s, from, b' ');
    &s[from..to]
}

// The place of a name among the words of a line, from 0 on; the number of the words where it is none of them.
//
// Ruled out: the place of a word that only begins with the name; the place after the word's.
pub fn place_of(names: &[u8], name: &[u8]) -> usize
    ensures { result ≡ place_in (words_in names.now) name.now }
{
    let mut at = 0;
    let mut n = 0;
    while at < names.len() {
        let end = until(names, at, b' ');
        if &names[at..end] == name {
            return n;
        }
        n += 1;
        at = end + 1;
    }
    n
}
