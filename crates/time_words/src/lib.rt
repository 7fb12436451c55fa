// What the words of `osc time` mean, and of the option --rule of `osc look`: a rule, and a time tag or a Unix time.
#![tactic(auto)]

mod tags; // tags.rt: a word as a time tag
mod seconds; // seconds.rt: a word as a Unix time

ghost use Rattle.std.specs.Prelude.{◌≡◌};
ghost use Rattle.time_words.specs.Asked.{rule_named, moment_of, time_asked, look_ruled};

use clock::Rule;
use seconds::seconds_of;
pub use seconds::{Moment, Plain, plain_of};
pub use tags::tag_in;
use troubles::{Blame, Trouble};
use words::lookup::beside;

// What time is asked.
#[derive(Clone, Copy)]
pub struct Timing {
    pub rule: Rule,
    pub moment: Moment,
}

// The words of the rules.
const RULES: [(&[u8], Rule); 2] = [(b"a", Rule::A), (b"b", Rule::B)];

// The rule that a word names.
//
// Ruled out: rule B for the word a; a rule for every word.
#[tactic(auto, unfolding(crate::specs::Asked::rule_named))]
fn rule_of(word: &[u8]) -> Option<Rule>
    ensures { result ≡ rule_named word.now }
{
    beside(&RULES, word)
}

// The time that a word says: 16 hexadecimal digits are a tag, and every other word is read as seconds.
//
// Ruled out: seconds for 16 digits; a tag for 15 of them.
#[tactic(auto, unfolding(crate::specs::Asked::moment_of))]
fn moment_of(word: &[u8]) -> Option<Moment>
    ensures { result ≡ moment_of word.now }
{
    match tag_in(word) {
        Some(tag) => Some(Moment::Tag(tag)),
        None => seconds_of(word),
    }
}

// What time is asked, of whose words there are `count`: word 2 is the rule, and word 3 the time.
//
// Ruled out: the other rule; a word too many.
pub fn time_asked(count: usize, rule: &[u8], word: &[u8]) -> Result<Timing, Blame>
    ensures { result ≡ time_asked count rule.now word.now }
{
    if count != 4 {
        return Err(Trouble::TimeWords.at(0));
    }
    let rule = rule_of(rule).ok_or(Trouble::NoRule.at(2))?;
    let moment = moment_of(word).ok_or(Trouble::NoTime.at(3))?;
    Ok(Timing { rule, moment })
}

// The rule that look is given, if any, of whose words there are `count`, where word 4 is --rule and word 5 names it.
//
// Ruled out: a rule where there is no --rule; none where there is.
#[tactic(auto, using(words::proofs::Beside::equal_turned))]
pub fn look_ruled(count: usize, name: &[u8], word: &[u8]) -> Result<Option<Rule>, Blame>
    ensures { result ≡ look_ruled count name.now word.now }
{
    if count != 6 {
        return Ok(None);
    }
    if name != b"--rule".as_slice() {
        return Ok(None);
    }
    let rule = rule_of(word).ok_or(Trouble::NoRule.at(5))?;
    Ok(Some(rule))
}
