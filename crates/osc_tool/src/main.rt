// The codec from a shell: it decodes a file to a table, encodes a table to a file, looks at a record, writes, checks and uses the cue
// index of a recording, shifts the time tags of one, and converts times. It says its answer in one line on standard output, and what went
// wrong with a word or a file in one line on standard error. What the words mean, what is kept and what is said is decided in `commands`,
// `time_words`, `amounts`, `outcomes`, `walks`, `slide_walks`, `telling` and `time_lines`; the crates whose names begin with `tool_` read
// and write files and hand lines on, and here the command is chosen.
#![tactic(auto)]

use commands::{Command, command_of, last_of, words_of};
use tool_cues::{checking, cue, index};
use tool_files::say;
use tool_files::typed::{word, word_count};
use tool_packets::{decode, encode, look, time};
use troubles::Trouble;

// Runs a command, of whose words there are `count`, --replace not counted.
fn run(rt: &HostRuntime, command: Command, count: usize, is_replacing: bool) {
    match command {
        Command::Decode => decode::run(rt, count, is_replacing),
        Command::Encode => encode::run(rt, count, is_replacing),
        Command::Look => look::run(rt, count),
        Command::Index => index::run(rt, count, is_replacing),
        Command::Check => checking::run(rt, count),
        Command::Cue => cue::run(rt, count, is_replacing),
        Command::Time => time::run(rt, count),
        Command::Shift => tool_shifts::run(rt, count, is_replacing),
        Command::Help => say::help(rt),
        Command::Version => say::version(rt, version::MAJOR, version::MINOR, version::PATCH),
    }
}

fn main(rt: HostRuntime) {
    let mut name = io::buffer();
    let n = word(&rt, 1, &mut name);
    let command = command_of(&name[..n]);
    let count = word_count(&rt);
    let mut last = io::buffer();
    let m = word(&rt, last_of(count), &mut last);
    match words_of(command, count, &last[..m]) {
        Ok(worded) => match command {
            Some(command) => run(&rt, command, worded.count, worded.is_replacing),
            None => say::blame(&rt, Trouble::NoCommand.at(1)),
        },
        Err(blame) => say::blame(&rt, blame),
    }
}
