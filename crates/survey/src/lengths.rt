// How long the data of an argument will be: a length is known before a byte is written.
ghost use Rattle.std.specs.Prelude.{◌≡◌, ◌+◌, ◌^◌, ◌≤◌, ◌<◌};
ghost use Rattle.strings.specs.CodeStrings.{string_length, blob_length};
ghost use Rattle.survey.specs.CodeSurvey.{argument_length};

use node::tags::Class;

// The length of a text of n bytes with its NULs.
pub fn string_length(n: usize) -> usize
    requires { n < 2 ^ 60 }
    ensures { result ≡ string_length n }
{
    n + (4 - n % 4)
}

// The length of a blob of n bytes with its size and its zeros.
fn blob_length(n: usize) -> usize
    requires { n < 2 ^ 60 }
    ensures { result ≡ blob_length n }
{
    4 + n + (4 - n % 4) % 4
}

// The bytes of data of an argument that is no array.
pub fn argument_length(class: Class, b: u32) -> usize
    ensures { (result ≡ argument_length class b) × (result ≤ 2 ^ 32 + 8) }
{
    match class {
        Class::Four | Class::Scalar => 4,
        Class::Eight => 8,
        Class::Text => string_length(b as usize),
        Class::Blob => blob_length(b as usize),
        Class::Bare | Class::Unknown => 0,
    }
}
