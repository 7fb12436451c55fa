// The operations that cases have, and their numbers in the file.
ghost use Rattle.recorded_runs.specs.Operation.{Decodes};

// The call that a case makes.
#[derive(Clone, Copy, Debug, PartialEq, Eq)]
pub enum Operation {
    DecodeUdp,
    DecodeTcp,
    DecodeTcpVec,
    Encode,
    EncodeTcp,
    EncodeString,
    Pad,
    Look,
    StartOf,
    DecodeTcp2,
    DecodeTcpVec2,
    EncodeTcp2,
}

// A number that no operation has.
#[derive(Clone, Copy, Debug, PartialEq, Eq)]
pub struct UnknownOperation(pub u8);

// The operation that has a number in the file.
//
// Ruled out: an operation for 12; the operation before the one that has the number.
impl TryFrom<u8> for Operation {
    type Error = UnknownOperation;

    ghost try_from_gives = { Decodes };

    fn try_from(number: u8) -> Result<Self, UnknownOperation> {
        match number {
            0 => Ok(Operation::DecodeUdp),
            1 => Ok(Operation::DecodeTcp),
            2 => Ok(Operation::DecodeTcpVec),
            3 => Ok(Operation::Encode),
            4 => Ok(Operation::EncodeTcp),
            5 => Ok(Operation::EncodeString),
            6 => Ok(Operation::Pad),
            7 => Ok(Operation::Look),
            8 => Ok(Operation::StartOf),
            9 => Ok(Operation::DecodeTcp2),
            10 => Ok(Operation::DecodeTcpVec2),
            11 => Ok(Operation::EncodeTcp2),
            _ => Err(UnknownOperation(number)),
        }
    }
}
