// One reading of a table for its check, its depth and its length. It is sure exactly of the tables whose packets can be written; of any
// other it answers that it is not, and the encoder finds out which refusal that is.
#![tactic(auto)]

mod lengths; // lengths.rt: how long the data of an argument will be

ghost use Rattle.std.specs.Prelude.{◌≡◌, ◌+◌, ◌-◌, ◌*◌, ◌^◌, ◌≤◌, ◌<◌, length};
ghost use Rattle.node.specs.Tags.{message_kind};
ghost use Rattle.node.specs.Records.{record_size, most_records, kind_at, end_at, capacity};
ghost use Rattle.survey.specs.CodeSurvey.{placed, InTable, leaf_ok, leaf_range, leaf_content};
ghost use Rattle.survey.specs.CodeSurvey.{SurveysArguments, SurveysPackets};
ghost use Rattle.survey.specs.Surveys.{unsure, Surveys};

use lengths::{argument_length, string_length};
use node::record::{END, Item, MOST_RECORDS, capacity_of, field_at, item_at, kind_at, zeros_at};
use node::rules::{leaf_rules, own_rules};
use node::tags::{BUNDLE, Class, MESSAGE, Sort, sort_of};
use table::text_ok;
use wire::{DEEPEST, lies_in};
use writers::{BUNDLE_HEAD, LONGEST_ELEMENT};

// What is answered in the place of a length where the reading is not sure.
const UNSURE: usize = LONGEST_ELEMENT + 1;

// The bytes of a message as an element before its address: its size.
const SIZE: usize = 4;

// The bytes of a bundle as an element before its elements: its size, its mark and its time tag.
const BUNDLE_AS_ELEMENT: usize = SIZE + BUNDLE_HEAD;

// The tags and the bytes of data of arguments; UNSURE bytes where the reading is not sure.
#[derive(Clone, Copy)]
struct Tally {
    tags: usize,
    content: usize,
}

// Whether a record has its three zeros, and ends after itself and no later than `hi`.
fn is_placed(table: &[u8], at: usize, hi: usize) -> bool
    requires { at < capacity table.now }
    ensures { result ≡ placed table.now at hi }
{
    let end = field_at(table, at, END) as usize;
    zeros_at(table, at) == 0 && at < end && end <= hi
}

// Whether the range of an argument that is no array is right. Not `table`'s `range_ok`, which goes by the kind: this answers for any class.
fn leaf_range(class: Class, item: Item, source: &[u8]) -> bool
    ensures { result ≡ leaf_range source.now class item }
{
    match class {
        Class::Text => text_ok(source, item.a, item.b),
        Class::Blob => lies_in(source, item.a, item.b),
        _ => true,
    }
}

// Whether an argument that is no array obeys its own rules and its range's.
fn leaf_ok(class: Class, item: Item, source: &[u8]) -> bool
    ensures { result ≡ leaf_ok source.now class item }
{
    leaf_rules(class, item) && leaf_range(class, item, source)
}

// The bytes of data of an argument that is no array, or UNSURE.
fn leaf_content(class: Class, item: Item, source: &[u8]) -> usize
    ensures { (result ≡ leaf_content source.now class item) × (result ≤ 2 ^ 33) }
{
    if leaf_ok(class, item, source) {
        argument_length(class, item.b)
    } else {
        UNSURE
    }
}

// The tags and the data of one argument and what it contains, no deeper than `levels`: an array takes one of them.
#[cycle(survey_argument_survey_arguments)]
fn survey_argument(table: &[u8], at: usize, source: &[u8], levels: usize) -> Tally
    requires { InTable table.now at }
    ensures surveys_arguments { SurveysArguments table.now source.now at (end_at table.now at) levels result }
    ensures tags_bound { (result.tags ≤ 2 * (end_at table.now at - at)) × (result.content ≤ 2 ^ 33) }
{
    let unsure = Tally {
        tags: 0,
        content: UNSURE,
    };
    let end = field_at(table, at, END) as usize;
    let item = item_at(table, at);
    match sort_of(item.kind) {
        Sort::Opens => {
            if levels == 0 {
                return unsure;
            }
            if !own_rules(item) {
                return unsure;
            }
            let inner = survey_arguments(table, at + 1, end, source, levels - 1);
            Tally {
                tags: 2 + inner.tags,
                content: inner.content,
            }
        }
        Sort::Closes => unsure,
        Sort::Leaf(class) => {
            if end != at + 1 {
                return unsure;
            }
            Tally {
                tags: 1,
                content: leaf_content(class, item, source),
            }
        }
    }
}

// The tags and the data of the arguments from record `lo` to record `hi`, no deeper than `levels`. No iterator, as the writers have one:
// that a record ends after itself is tested here.
#[cycle(survey_argument_survey_arguments)]
fn survey_arguments(table: &[u8], lo: usize, hi: usize, source: &[u8], levels: usize) -> Tally
    requires { (lo ≤ hi) × (hi ≤ most_records) × (record_size * hi ≤ length table.now) }
    ensures surveys_arguments { SurveysArguments table.now source.now lo hi levels result }
    ensures tags_bound { (result.tags ≤ 2 * (hi - lo)) × (result.content ≤ unsure) }
{
    let unsure = Tally {
        tags: 0,
        content: UNSURE,
    };
    let mut tags: usize = 0;
    let mut content: usize = 0;
    let mut at = lo;
    while at < hi {
        if !is_placed(table, at, hi) {
            return unsure;
        }
        let argument = survey_argument(table, at, source, levels);
        tags += argument.tags;
        content += argument.content;
        if LONGEST_ELEMENT < content {
            return unsure;
        }
        at = field_at(table, at, END) as usize;
    }
    Tally { tags, content }
}

// The length of the message at a record as an element, its size counted. A message takes no level, and hands `levels` on to its arguments.
fn survey_message(table: &[u8], at: usize, source: &[u8], levels: usize) -> usize
    requires { (kind_at table.now at ≡ message_kind) × InTable table.now at }
    ensures { SurveysPackets table.now source.now at (end_at table.now at) levels result
        × (result ≤ 2 ^ 34) }
{
    let item = item_at(table, at);
    if !text_ok(source, item.a, item.b) {
        return UNSURE;
    }
    let end = field_at(table, at, END) as usize;
    let inner = survey_arguments(table, at + 1, end, source, levels);
    SIZE + string_length(item.b as usize) + string_length(1 + inner.tags) + inner.content
}

// The length of one packet as an element, its size counted, and no deeper than `levels`: a bundle takes one of them.
#[cycle(survey_packet_survey_packets)]
fn survey_packet(table: &[u8], at: usize, source: &[u8], levels: usize) -> usize
    requires { InTable table.now at }
    ensures { SurveysPackets table.now source.now at (end_at table.now at) levels result
        × (result ≤ 2 ^ 34) }
{
    match kind_at(table, at) {
        MESSAGE => survey_message(table, at, source, levels),
        BUNDLE => {
            if levels == 0 {
                return UNSURE;
            }
            let end = field_at(table, at, END) as usize;
            BUNDLE_AS_ELEMENT + survey_packets(table, at + 1, end, source, levels - 1)
        }
        _ => UNSURE,
    }
}

// The length of the packets from record `lo` to record `hi` as elements of a bundle, no deeper than `levels`; `survey_arguments` says why
// by a `while`.
#[cycle(survey_packet_survey_packets)]
fn survey_packets(table: &[u8], lo: usize, hi: usize, source: &[u8], levels: usize) -> usize
    requires { (lo ≤ hi) × (hi ≤ most_records) × (record_size * hi ≤ length table.now) }
    ensures { SurveysPackets table.now source.now lo hi levels result × (result ≤ unsure) }
{
    let mut total: usize = 0;
    let mut at = lo;
    while at < hi {
        if !is_placed(table, at, hi) {
            return UNSURE;
        }
        total += survey_packet(table, at, source, levels);
        if LONGEST_ELEMENT < total {
            return UNSURE;
        }
        at = field_at(table, at, END) as usize;
    }
    total
}

// The length of the packet of a table as an element, its size counted, or UNSURE where no such packet can be written.
//
// Ruled out: a length for a table whose first record ends before its last; UNSURE for a message with 17 arrays in each other.
pub fn survey(table: &[u8], count: usize, source: &[u8]) -> usize
    ensures { Surveys table.now count source.now result }
{
    if count == 0
        || MOST_RECORDS < count
        || capacity_of(table) < count
        || field_at(table, 0, END) as usize != count
    {
        return UNSURE;
    }
    survey_packets(table, 0, count, source, DEEPEST)
}
