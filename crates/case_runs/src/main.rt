// Runs the cases of standard input: small ones, so that an interpreter can run them too. limit_runs has the largest.
#![tactic(auto)]

fn main() {
    let mut text = io::large_buffer();
    let n = io::read_full(0, &mut text);
    let mut input = io::buffer();
    let mut lent = io::buffer();
    let mut space = io::buffer();
    cases::run(&text[..n], &mut input, &mut lent, &mut space);
}
