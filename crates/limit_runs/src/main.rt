// Runs the cases of standard input: the longest inputs, texts and outputs, and the deepest and largest tables. What each call answers is
// said, and a call that needs more stack than there is ends the run.
#![tactic(auto)]

ghost use Rattle.std.specs.Prelude.{◌≡◌, length};

// Room for 65,540 records.
fn table_space() -> [u8; 1310800]
    ensures { 1310800 ≡ length result }
{
    [0; 1310800]
}

// Room for an input that is too long by far.
fn input_space() -> [u8; 65600]
    ensures { 65600 ≡ length result }
{
    [0; 65600]
}

fn main() {
    let mut text = io::large_buffer();
    let n = io::read_full(0, &mut text);
    let mut input = input_space();
    let mut lent = table_space();
    let mut space = table_space();
    cases::run(&text[..n], &mut input, &mut lent, &mut space);
}
