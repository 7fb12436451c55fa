// The command time: a time tag or a Unix time, and the other of the two by a rule.
use time_lines::tell_moment;
use time_words::{Timing, time_asked};
use tool_files::say;
use tool_files::typed::word;

// Says a time by a rule.
fn say_time(rt: &HostRuntime, timing: Timing) {
    let mut line = io::buffer();
    let n = tell_moment(timing.rule, timing.moment, &mut line);
    say::answer(rt, &line[..n]);
}

// Of its words there are `count`: word 2 is the rule, and word 3 the time.
pub fn run(rt: &HostRuntime, count: usize) {
    let mut rule = io::buffer();
    let mut moment = io::buffer();
    let n = word(rt, 2, &mut rule);
    let m = word(rt, 3, &mut moment);
    match time_asked(count, &rule[..n], &moment[..m]) {
        Ok(timing) => say_time(rt, timing),
        Err(blame) => say::blame(rt, blame),
    }
}
