// Whether bytes are UTF-8, and how many bytes a character has, by the grammar of RFC 3629, section 4.
#![tactic(auto)]

ghost use Rattle.std.specs.Prelude.{◌≡◌, ◌*◌, ◌≤◌, ltb, length};
ghost use Rattle.utf8.specs.Utf8.{Octets, Decides};
ghost use Rattle.utf8.specs.Lead.{lead_of};
ghost use Rattle.utf8.specs.CodeHighest.{highest_of, PlainBefore};
ghost use Rattle.utf8.specs.Automaton.{classes, nexts, StateRow};
ghost use Rattle.utf8.specs.CodeStates.{Reads};

// The class of each byte value: how many of the grammar's limits (`limits`, in specs/Automaton.antt) are at or below it.
// A comment names the first byte value of each class.
const CLASS: [u8; 256] = [
    0, // 00
    0, 0, 0, 0, 0, 0, 0, 0, 0, 0, 0, 0, 0, 0, 0, 0, 0, 0, 0, 0, 0, 0, 0, 0, 0, 0, 0, 0, 0, 0, 0, 0,
    0, 0, 0, 0, 0, 0, 0, 0, 0, 0, 0, 0, 0, 0, 0, 0, 0, 0, 0, 0, 0, 0, 0, 0, 0, 0, 0, 0, 0, 0, 0, 0,
    0, 0, 0, 0, 0, 0, 0, 0, 0, 0, 0, 0, 0, 0, 0, 0, 0, 0, 0, 0, 0, 0, 0, 0, 0, 0, 0, 0, 0, 0, 0, 0,
    0, 0, 0, 0, 0, 0, 0, 0, 0, 0, 0, 0, 0, 0, 0, 0, 0, 0, 0, 0, 0, 0, 0, 0, 0, 0, 0, 0, 0, 0, 0, 1, // 80
    1, 1, 1, 1, 1, 1, 1, 1, 1, 1, 1, 1, 1, 1, 1, 2, // 90
    2, 2, 2, 2, 2, 2, 2, 2, 2, 2, 2, 2, 2, 2, 2, 3, // A0
    3, 3, 3, 3, 3, 3, 3, 3, 3, 3, 3, 3, 3, 3, 3, 3, 3, 3, 3, 3, 3, 3, 3, 3, 3, 3, 3, 3, 3, 3, 3, 4, // C0
    4, 5, // C2
    5, 5, 5, 5, 5, 5, 5, 5, 5, 5, 5, 5, 5, 5, 5, 5, 5, 5, 5, 5, 5, 5, 5, 5, 5, 5, 5, 5, 5, 6, // E0
    7, // E1
    7, 7, 7, 7, 7, 7, 7, 7, 7, 7, 7, 8, // ED
    9, // EE
    9, 10, // F0
    11, // F1
    11, 11, 12, // F4
    13, // F5
    13, 13, 13, 13, 13, 13, 13, 13, 13, 13,
];

// The next state, by state and class: a row for each of the 9 states, with an entry for each of the 14 classes. A state is kept as the
// place where its row begins, 14 times its number, so that an entry stands at the sum of state and class.
const NEXT: [u8; 126] = [
    // 0: a character may begin
    0, // 00 to 7F
    112, 112, 112, 112, // C0 and C1 would be overlong
    14, // C2 to DF
    56, // E0
    28, // E1 to EC
    70, // ED
    28, // EE and EF
    84, // F0
    42, // F1 to F3
    98, // F4
    112, // F5 to FF
    // 1: a tail is to come
    112, 0, 0, 0, 112, 112, 112, 112, 112, 112, 112, 112, 112, 112,
    // 2: two tails are to come
    112, 14, 14, 14, 112, 112, 112, 112, 112, 112, 112, 112, 112, 112,
    // 3: three tails are to come
    112, 28, 28, 28, 112, 112, 112, 112, 112, 112, 112, 112, 112, 112,
    // 4, after E0: A0 to BF is to come, and a tail
    112, 112, // E0 80 to E0 9F would be overlong
    112, 14, 112, 112, 112, 112, 112, 112, 112, 112, 112, 112,
    // 5, after ED: 80 to 9F is to come, and a tail
    112, 14, 14, 112, // ED A0 to ED BF would be surrogates
    112, 112, 112, 112, 112, 112, 112, 112, 112, 112,
    // 6, after F0: 90 to BF is to come, and two tails
    112, 112, // F0 80 to F0 8F would be overlong
    28, 28, 112, 112, 112, 112, 112, 112, 112, 112, 112, 112,
    // 7, after F4: 80 to 8F is to come, and two tails
    112, 28, 112, // F4 90 to F4 BF would be beyond U+10FFFF
    112, 112, 112, 112, 112, 112, 112, 112, 112, 112, 112,
    // 8: no byte helps any more
    112, 112, 112, 112, 112, 112, 112, 112, 112, 112, 112, 112, 112, 112,
];

// The greatest byte, and 0 where there is none. With no early exit, a compiled step takes many bytes.
fn highest(s: &[u8]) -> u8
    ensures { result ≡ highest_of 0 s.now }
{
    s.iter().fold(0, |top, byte| top.max(*byte))
}

// Whether a byte is above 0x7F, of `n` to `2 * n` bytes: the first `n` and the last `n` are all of them.
fn high_in_ends(s: &[u8], n: usize) -> bool
    requires { (n ≤ length s.now) × (length s.now ≤ 2 * n) }
    ensures { result ≡ ltb 0x7F (highest_of 0 s.now) }
{
    if 0x7F < highest(&s[..n]) {
        return true;
    }
    let last = s.len() - n;
    0x7F < highest(&s[last..])
}

// Whether a byte is above 0x7F, of at most 64 bytes. Each size has a return of its own: as the arms of a `match` they are compiled into one
// call for all sizes, which took more than twice as long.
fn high_in_few(s: &[u8]) -> bool
    requires { length s.now ≤ 64 }
    ensures { result ≡ ltb 0x7F (highest_of 0 s.now) }
{
    let n = s.len();
    if 32 <= n {
        return high_in_ends(s, 32);
    }
    if 16 <= n {
        return high_in_ends(s, 16);
    }
    if 8 <= n {
        return high_in_ends(s, 8);
    }
    if 4 <= n {
        return high_in_ends(s, 4);
    }
    0x7F < highest(s)
}

// What is left after blocks of `n` bytes that are below 0x80: at most `n` bytes, or a block that is not.
fn skip(s: &[u8], n: usize) -> &[u8]
    requires { 1 ≤ n }
    ensures { PlainBefore n s.now result.now }
{
    let mut rest = s;
    while n < rest.len() {
        let (block, later) = rest.split_at(n);
        if 0x7F < highest(block) {
            return rest;
        }
        rest = later;
    }
    rest
}

// The same, by large blocks and then by small ones.
fn after_plain(s: &[u8]) -> &[u8]
    ensures { PlainBefore 64 s.now result.now }
{
    skip(skip(s, 256), 64)
}

// The automaton on some bytes, from one state to another: each byte is one step. The tables are lent, since each function that binds one
// builds it anew.
fn advance(s: &[u8], class: &[u8; 256], next: &[u8; 126], from: usize) -> usize
    requires { (class.now ≡ classes) × (next.now ≡ nexts) × StateRow from }
    ensures { Reads from s.now result }
{
    let mut state = from;
    for byte in s {
        state = next[state + class[*byte as usize] as usize] as usize;
    }
    state
}

// The same for a block: where no character is open and all its bytes are below 0x80, it is passed over.
fn across(s: &[u8], class: &[u8; 256], next: &[u8; 126], from: usize) -> usize
    requires { (class.now ≡ classes) × (next.now ≡ nexts) × StateRow from }
    ensures { Reads from s.now result }
{
    if from == 0 && highest(s) < 0x80 {
        return 0;
    }
    advance(s, class, next, from)
}

// Whether `s` is UTF-8, by the automaton, a block at a time.
fn walk(s: &[u8]) -> bool
    ensures { Decides result (Octets s.now) }
{
    let class = CLASS;
    let next = NEXT;
    let mut state: usize = 0;
    let mut left = s;
    while let Some((block, later)) = left.split_first_chunk::<32>() {
        state = across(block, &class, &next, state);
        left = later;
    }
    advance(left, &class, &next, state) == 0
}

// Whether `s` is UTF-8. Bytes below 0x80 are characters by themselves, and need no tables.
// Ruled out: true for the overlong C0 80; true for a surrogate ED A0 80; true for a cut E2 82; false for an empty slice.
pub fn is_utf8(s: &[u8]) -> bool
    ensures { Decides result (Octets s.now) }
{
    let n = s.len();
    if n <= 64 {
        if high_in_few(s) {
            return walk(s);
        }
        return true;
    }
    let rest = after_plain(s);
    if rest.len() <= 64 && highest(&s[n - 64..]) < 0x80 {
        return true;
    }
    walk(rest)
}

// How many bytes the character has that begins with `first`.
// Ruled out: 1 for C3, which begins two bytes; 3 for F0, which begins four.
pub fn lead(first: u8) -> usize
    ensures { result ≡ lead_of first }
{
    if first < 0x80 {
        1
    } else if first < 0xE0 {
        2
    } else if first < 0xF0 {
        3
    } else {
        4
    }
}
