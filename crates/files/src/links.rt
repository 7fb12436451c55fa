// The file that a name leads to by symbolic links: an output takes the place of that file, and the links stay.
ghost use Rattle.std.specs.Prelude.{◌≡◌, ◌≤◌, IfSome, length};
ghost use Rattle.io.specs.Counts.{IsPrefixLen};
ghost use Rattle.files.specs.Beside.{longest_name};

use crate::beside::LONGEST_NAME;
use crate::names::{is_link, link_at};
use wire::copy;

// How many links are followed at most, as by the system.
const MOST_LINKS: usize = 40;

// Where the name of a file begins, after that of its folder.
fn folder_end(path: &[u8]) -> usize
    ensures { result ≤ length path.now }
{
    path.iter().rposition(|b| *b == b'/').map_or(0, |i| i + 1)
}

// How much of a link's name stays before its text: that of its folder, or nothing where the text begins with '/'.
fn kept_of(path: &[u8], text: &[u8]) -> usize
    ensures { result ≤ length path.now }
{
    if text.starts_with(b"/") {
        return 0;
    }
    folder_end(path)
}

// Puts the name that a link leads to in the place of the link's, which are the first `n` bytes, and answers its length; none
// where it is too long.
fn lead(name: &mut [u8], n: usize, text: &[u8]) -> Option<usize>
    requires { IsPrefixLen n name.old × (longest_name ≤ length name.old) × (length text.now ≤ 4096) }
    ensures fits { IfSome result (λ m. IsPrefixLen m name.new × (m ≤ longest_name)) }
    ensures room { length name.new ≡ length name.old }
{
    let at = kept_of(&name[..n], text);
    if LONGEST_NAME < at + text.len() {
        return None;
    }
    copy(text, &mut name[at..]);
    Some(at + text.len())
}

// Puts the name of the file that a name leads to at the start of `name`, and answers its length; none where the name has no
// bytes, it is too long, no end is reached, or a link's text is not told.
pub fn follow(rt: &HostRuntime, path: &[u8], name: &mut [u8]) -> Option<usize>
    requires { (length path.now ≤ longest_name) × (longest_name ≤ length name.old) }
    ensures { IfSome result (λ n. IsPrefixLen n name.new × (n ≤ longest_name)) }
{
    if path.is_empty() {
        return None;
    }
    copy(path, name);
    let mut n = path.len();
    for _ in 0..MOST_LINKS {
        if !is_link(rt, &name[..n]) {
            return Some(n);
        }
        let mut text = io::buffer();
        let m = link_at(rt, &name[..n], &mut text)?;
        n = lead(name, n, &text[..m])?;
    }
    None
}
