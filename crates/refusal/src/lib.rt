// The refusals of documents 01 and 02, in place of rosc's errors.rs: ours are numbered, and say nothing else but, of a field that was
// short, where it began (Ticket 2).
#![tactic(auto)]

ghost use Rattle.std.specs.Prelude.{◌≡◌, ◌+◌, ◌^◌, ◌<◌};
ghost use Rattle.refusal.specs.declared.Refusal.TheVariants.{Unreadable};
ghost use Rattle.refusal.specs.Refusal.{number_of, fault_number, field_number, offset_of, fault_offset, moved_by, moved_refusal};

// What was short.
#[derive(Clone, Copy, Debug, PartialEq, Eq)]
pub enum Field {
    // The address of a message, or a first text that is not known yet to be "#bundle".
    Address,
    // The type text of a message.
    TypeText,
    // The data of an argument, a blob's with its size.
    Data,
    // The padding after a text or a blob.
    Padding,
    // The prefix of a frame, or the time tag of a bundle.
    Head,
}

// Why bytes are not a packet. Reading gives no other refusal.
#[derive(Clone, Copy, Debug, PartialEq, Eq)]
pub enum Fault {
    // A packet of no bytes.
    Empty,
    // A field runs past the bytes there, NUL included; it begins at `at`.
    Short { field: Field, at: usize },
    // Text is not UTF-8.
    NotUtf8,
    // The first string is neither '/'-led nor exactly "#bundle".
    BadStart,
    // ']' with no array open.
    NotOpen,
    // Unknown type tag.
    UnknownTag,
    // 'c' is not a scalar number.
    NotScalar,
}

// Why a call gives no answer.
#[derive(Clone, Copy, Debug, PartialEq, Eq)]
pub enum Refusal {
    // The decode input or the encoded result is over 65,535 bytes.
    TooLong,
    // The bytes are not a packet.
    Unreadable(Fault),
    // Bundles and arrays are nested deeper than the limit.
    TooDeep,
    // The result has more records than the table's capacity.
    TableFull,
    // The table is not well formed, or a record asked for does not exist.
    BadTable,
    // The output slice is shorter than the result.
    OutputShort,
    // The depth limit is over 64.
    DepthLimit,
    // `pad` of a position over 2^64 - 4.
    PadOverflow,
    // A frame of edition 2 has bytes left after its packet.
    BytesLeft,
    // The length of a frame of edition 2 is no multiple of 4.
    OddLength,
}

// Bytes that are not a packet refuse the call by their fault.
impl From<Fault> for Refusal {
    ghost from_gives = { λ fault refusal. refusal ≡ Unreadable fault };

    fn from(fault: Fault) -> Refusal {
        Refusal::Unreadable(fault)
    }
}

// The number of a refusal in document 01.
//
// Ruled out: 9 for a table that is full, whose number is 10; one number for every fault of reading.
pub fn number_of(refusal: Refusal) -> u8
    ensures { result ≡ number_of refusal }
{
    match refusal {
        Refusal::TooLong => 1,
        Refusal::Unreadable(fault) => fault_number(fault),
        Refusal::TooDeep => 9,
        Refusal::TableFull => 10,
        Refusal::BadTable => 11,
        Refusal::OutputShort => 12,
        Refusal::DepthLimit => 13,
        Refusal::PadOverflow => 14,
        Refusal::BytesLeft => 15,
        Refusal::OddLength => 16,
    }
}

// The number of a fault: the refusals 2, 4 to 8, and 17 to 21.
fn fault_number(fault: Fault) -> u8
    ensures { result ≡ fault_number fault }
{
    match fault {
        Fault::Empty => 2,
        Fault::Short { field, at: _ } => field_number(field),
        Fault::NotUtf8 => 4,
        Fault::BadStart => 5,
        Fault::NotOpen => 6,
        Fault::UnknownTag => 7,
        Fault::NotScalar => 8,
    }
}

// The number of a field that was short.
fn field_number(field: Field) -> u8
    ensures { result ≡ field_number field }
{
    match field {
        Field::Address => 17,
        Field::TypeText => 18,
        Field::Data => 19,
        Field::Padding => 20,
        Field::Head => 21,
    }
}

// Where the field began that was short; 0 of every other refusal.
//
// Ruled out: the end of the field; another number than 0 for a refusal that tells its number only.
pub fn offset_of(refusal: Refusal) -> usize
    ensures { result ≡ offset_of refusal }
{
    match refusal {
        Refusal::Unreadable(fault) => fault_offset(fault),
        _ => 0,
    }
}

// The same of a fault.
fn fault_offset(fault: Fault) -> usize
    ensures { result ≡ fault_offset fault }
{
    match fault {
        Fault::Short { at, .. } => at,
        _ => 0,
    }
}

// A fault of a part that begins `by` bytes further on.
//
// Ruled out: a field that is short taken for another one; the part's place in the stead of the field's.
pub fn moved(by: usize, fault: Fault) -> Fault
    requires { by + fault_offset fault < 2 ^ 64 }
    ensures { result ≡ moved_by by fault }
{
    match fault {
        Fault::Short { field, at } => Fault::Short { field, at: by + at },
        _ => fault,
    }
}

// A refusal of a part that begins `by` bytes further on: its field begins there too.
//
// Ruled out: the field's place in its part; a place for a refusal that tells its number only.
pub fn moved_refusal(by: usize, refusal: Refusal) -> Refusal
    requires { by + offset_of refusal < 2 ^ 64 }
    ensures { result ≡ moved_refusal by refusal }
{
    match refusal {
        Refusal::Unreadable(fault) => Refusal::Unreadable(moved(by, fault)),
        _ => refusal,
    }
}
