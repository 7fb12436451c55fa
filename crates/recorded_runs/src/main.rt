// Replays the recorded answers of `answers.bin` through the C boundary, and says what was answered, how many there are and which differ.
//
// The file is a sequence of cases, its numbers big-endian: operation (1 byte), number (8), room (4), first slice (length in 4
// bytes, and the bytes), second slice (the same), answer due (8), what is due beside it (8), bytes due at the front of the buffer (as a
// slice). A program has no exit status, so the last line is `N answers, 0 differences` just where the file is whole and no case differs.
#![tactic(auto)]

mod case; // case.rt: the layout of a case
mod operation; // operation.rt: the operations, and their numbers in the file
mod replay; // replay.rt: the call of a case, and whether it leaves what is due
mod tell; // tell.rt: what is said of the cases

ghost use Rattle.std.specs.Prelude.{◌≡◌, ◌<◌, ◌≤◌, IfSome, length};

use operation::Operation;
use replay::Met;
use runs::tally::add;

// The tally: for each operation 24 counts, one for each answer (given, waiting, refused with 0 to 21); then how many answers there are and
// how many differ, and the sums of what was answered and of what was lent.
#[derive(Clone, Copy, Debug, PartialEq, Eq)]
struct Tally {
    times: [[u64; 24]; 12],
    answers: u64,
    differences: u64,
    answered: u64,
    lent: u64,
}

// How a call went, as its answer tells.
#[derive(Clone, Copy, Debug, PartialEq, Eq)]
enum Told {
    Given,
    Waiting,
    Refused(u64),
}

// Room for a file of 1,048,576 bytes and one more, which tells that a file is longer.
fn file_space() -> [u8; 1048577]
    ensures { 1048577 ≡ length result }
{
    [0; 1048577]
}

// What an answer tells. A refusal stands in bits 56 to 63, but for `pad`, whose 14 is no multiple of 4; `decode_tcp` of either edition
// waits where its count, in bits 32 to 55, is 0.
fn meaning(operation: Operation, answer: u64) -> Told {
    let refusal = answer / 0x100_0000_0000_0000;
    match operation {
        Operation::Pad => if answer == 14 {
            Told::Refused(14)
        } else {
            Told::Given
        },
        _ if 0 < refusal => Told::Refused(refusal),
        Operation::DecodeTcp | Operation::DecodeTcp2 if answer < 0x1_0000_0000 => Told::Waiting,
        _ => Told::Given,
    }
}

// The place of an answer among the 24 of its operation.
fn place(told: Told) -> usize
    ensures { result < 24 }
{
    match told {
        Told::Given => 0,
        Told::Waiting => 1,
        Told::Refused(number) => 2 + (number % 22) as usize,
    }
}

// Counts a case, and says whether and in what it differs.
fn judge(tally: &mut Tally, operation: Operation, met: Met) {
    add(
        &mut tally.times[operation as usize],
        place(meaning(operation, met.answer)),
    );
    tally.answers = tally.answers.wrapping_add(1);
    tally.answered = tally.answered.wrapping_add(met.answer);
    tally.lent = tally.lent.wrapping_add(met.sum);
    if let Err(difference) = met.outcome {
        tally.differences = tally.differences.wrapping_add(1);
        tell::difference(tally.answers, operation, difference);
    }
}

// Replays the case at the front of a part of the file, and says how many bytes it takes; none where it is damaged.
fn step(rest: &[u8], tally: &mut Tally) -> Option<usize>
    ensures { IfSome result (λ n. (0 < n) × (n ≤ length rest.now)) }
{
    let case = case::find(rest)?;
    let met = replay::replay(rest, case);
    judge(tally, case.operation, met);
    Some(case.end)
}

// Replays the cases one after the other, and says how many bytes they take: all, or up to the first that is damaged.
fn replay_all(file: &[u8], tally: &mut Tally) -> usize {
    let mut at = 0;
    while at < file.len() {
        let Some(taken) = step(&file[at..], tally) else {
            return at;
        };
        at += taken;
    }
    at
}

// Says what is wrong with a file whose cases are whole up to `end`, where anything is.
fn fault(len: usize, end: usize, answers: u64) {
    if len == 0 {
        io::write_all(1, b"answers.bin is empty\n");
    }
    if 1048576 < len {
        io::write_all(1, b"answers.bin is longer than 1048576 bytes\n");
    }
    if end < len {
        io::write_all(1, b"answers.bin is damaged or cut short after case ");
        io::print_decimal(1, answers);
        io::write_all(1, b"\n");
    }
}

// Says what was met.
fn say_all(tally: &Tally) {
    tell::counts(&tally.times);
    tell::sums(tally.answered, tally.lent);
    tell::total(tally.answers, tally.differences);
}

// Replays a file, and says what came of it.
fn report(file: &[u8]) {
    let mut tally = Tally {
        times: [[0; 24]; 12],
        answers: 0,
        differences: 0,
        answered: 0,
        lent: 0,
    };
    let end = replay_all(file, &mut tally);
    say_all(&tally);
    fault(file.len(), end, tally.answers);
}

fn main(rt: HostRuntime) {
    let mut space = file_space();
    let Ok(n) = files::read(&rt, b"answers.bin", &mut space) else {
        io::write_all(1, b"answers.bin cannot be read\n");
        return;
    };
    report(&space[..n]);
}
