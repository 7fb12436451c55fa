// What is said of the cases, on standard output.
use crate::operation::Operation;
use crate::replay::Difference;
use runs::said::{say, say_counts};
use runs::tally::say_met;

// The names of the operations, in their order.
const NAMES: [&[u8]; 12] = [
    b"decode_udp",
    b"decode_tcp",
    b"decode_tcp_vec",
    b"encode",
    b"encode_tcp",
    b"encode_string",
    b"pad",
    b"look",
    b"start_of",
    b"decode_tcp2",
    b"decode_tcp_vec2",
    b"encode_tcp2",
];

// Says in what a case differs.
fn what(difference: Difference) {
    match difference {
        Difference::OtherAnswer => io::write_all(1, b"the answer differs"),
        Difference::OtherField => io::write_all(1, b"what is said beside the answer differs"),
        Difference::OtherBytes => io::write_all(1, b"the bytes written differ"),
        Difference::LaterByte => io::write_all(1, b"a later byte is changed"),
    };
}

// Says which case differs, and in what.
pub fn difference(number: u64, operation: Operation, difference: Difference) {
    say(b"case ", number);
    io::write_all(1, b", ");
    io::write_all(1, NAMES[operation as usize]);
    io::write_all(1, b": ");
    what(difference);
    io::write_all(1, b"\n");
}

// Says how often each operation gave each answer.
pub fn counts(times: &[[u64; 24]; 12]) {
    for (name, met) in NAMES.iter().zip(times.iter()) {
        io::write_all(1, *name);
        say_met(b"given waiting", met);
    }
}

// Says the sums of what was answered and of what was lent.
pub fn sums(answered: u64, lent: u64) {
    say_counts(
        b"sum ",
        answered,
        b" of what was answered, ",
        lent,
        b" of what was lent\n",
    );
}

// Says how many answers there are, and how many of them differ.
pub fn total(answers: u64, differences: u64) {
    say_counts(b"", answers, b" answers, ", differences, b" differences\n");
}
