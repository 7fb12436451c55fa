// A record's own rules, without its zero bytes, its end and its range. `look`, the table check and the survey go by them.
ghost use Rattle.std.specs.Prelude.{◌≡◌};
ghost use Rattle.node.specs.Rules.{is_packet, own_rules, arg_rules, leaf_rules};

use crate::record::Item;
use crate::tags;
use crate::tags::{BUNDLE, Class, MESSAGE, Sort};

// Whether the fields of an argument that is no array obey their class.
pub fn leaf_rules(class: Class, item: Item) -> bool
    ensures { result ≡ leaf_rules class item }
{
    match class {
        Class::Four => item.b == 0,
        Class::Bare => item.a == 0 && item.b == 0,
        Class::Eight | Class::Text | Class::Blob => true,
        Class::Scalar => item.b == 0 && tags::is_scalar(item.a),
        Class::Unknown => false,
    }
}

// Whether a kind is a packet's: a bundle or a message.
pub fn is_packet(kind: u8) -> bool
    ensures { result ≡ is_packet kind }
{
    matches!(kind, BUNDLE | MESSAGE)
}

// Whether a record's own rules hold: its kind is known, its zero fields are 0, and 'c' is a scalar number.
pub fn own_rules(item: Item) -> bool
    ensures { result ≡ own_rules item }
{
    is_packet(item.kind) || arg_rules(tags::sort_of(item.kind), item)
}

// The same for an argument.
fn arg_rules(sort: Sort, item: Item) -> bool
    ensures { result ≡ arg_rules sort item }
{
    match sort {
        Sort::Opens => item.a == 0 && item.b == 0,
        Sort::Closes => false,
        Sort::Leaf(class) => leaf_rules(class, item),
    }
}
