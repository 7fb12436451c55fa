// Cases of the decoders, the encoders and the other calls, one to a line: they are run, what each call answered is said, and every
// answer and every byte of what was lent is compared with what it should be. An empty line, and one that begins with '#', has no case;
// `about NAME` says what the cases after it are of.
#![tactic(auto)]

mod call; // call.rt: the calls of the library
mod expected; // expected.rt: what a line expects
mod ask; // ask.rt: one case
mod met; // met.rt: what was met

use met::Met;
use words::line::{after, front, until, word};

// Runs the case of a line.
fn case(
    text: &[u8],
    number: u64,
    input: &mut [u8],
    lent: &mut [u8],
    space: &mut [u8],
    met: &mut Met,
) {
    let equals = until(text, 0, b'=');
    let asked = front(text, equals);
    let name = word(asked, 0);
    let call = call::call_of(name);
    let found = ask::ask(call, asked, after(text, equals + 1), input, lent, space);
    met::say_case(name, found.outcome);
    met::count(met, call, found);
    if !found.is_right {
        met::tell(number, text);
    }
}

// Does what a line says.
fn obey(
    text: &[u8],
    number: u64,
    input: &mut [u8],
    lent: &mut [u8],
    space: &mut [u8],
    met: &mut Met,
) {
    if text.is_empty() || text[0] == b'#' {
        return;
    }
    if word(text, 0) == b"about".as_slice() {
        met::say_about(after(text, 5));
    } else {
        case(text, number, input, lent, space, met);
    }
}

// Runs the cases of a text. Inputs, what is lent, and tables with what is expected have as much room as the three slices.
pub fn run(text: &[u8], input: &mut [u8], lent: &mut [u8], space: &mut [u8]) {
    let mut met = met::none();
    for (i, line) in text.split(|b| *b == b'\n').enumerate() {
        obey(line, i as u64 + 1, input, lent, space, &mut met);
    }
    met::report(&met);
}
