// What a type tag, or the kind of an argument's record, stands for. Reader, writer and table check go by it.
ghost use Rattle.std.specs.Prelude.{◌≡◌};
ghost use Rattle.node.specs.Tags.{sort_of, class_of, is_scalar};

// The kind of a message.
pub const MESSAGE: u8 = b'/';

// The kind of a bundle.
pub const BUNDLE: u8 = b'#';

// The kind of an array, and the tag that opens one.
pub const ARRAY: u8 = b'[';

// The data of an argument that is no array.
#[derive(Clone, Copy, Debug, PartialEq, Eq)]
pub enum Class {
    // 4 bytes: 'i', 'f', 'r', 'm'.
    Four,
    // 8 bytes: 'h', 'd', 't'.
    Eight,
    // No data: 'T', 'F', 'N', 'I'.
    Bare,
    // A text: 's'.
    Text,
    // A size and bytes: 'b'.
    Blob,
    // 4 bytes that are a scalar number: 'c'.
    Scalar,
    // No tag of ours.
    Unknown,
}

// What a tag does to the arguments.
#[derive(Clone, Copy, Debug, PartialEq, Eq)]
pub enum Sort {
    // '[' opens an array.
    Opens,
    // ']' closes one.
    Closes,
    // Any other tag is one argument.
    Leaf(Class),
}

// The sort of a tag.
pub fn sort_of(tag: u8) -> Sort
    ensures { result ≡ sort_of tag }
{
    match tag {
        ARRAY => Sort::Opens,
        b']' => Sort::Closes,
        _ => Sort::Leaf(class_of(tag)),
    }
}

// The class of a tag that is no bracket.
fn class_of(tag: u8) -> Class
    ensures { result ≡ class_of tag }
{
    match tag {
        b'i' | b'f' | b'r' | b'm' => Class::Four,
        b'h' | b'd' | b't' => Class::Eight,
        b'T' | b'F' | b'N' | b'I' => Class::Bare,
        b's' => Class::Text,
        b'b' => Class::Blob,
        b'c' => Class::Scalar,
        _ => Class::Unknown,
    }
}

// Whether a number is a Unicode scalar value, as Rust's `char::from_u32` has it.
pub fn is_scalar(x: u32) -> bool
    ensures { result ≡ is_scalar x }
{
    char::from_u32(x).is_some()
}
