// What a call comes to: the refusals of 01, 'What is turned away, in order', the answers, and the number that C gets for each.
#![tactic(auto)]

ghost use Rattle.std.specs.Prelude.{◌≡◌};
ghost use Rattle.codes.specs.Codes.{answer_number, fault_number, outcome_code};

use std::error::Error;
use std::fmt;

// Why a call is refused.
#[derive(Clone, Copy, PartialEq, Eq, Debug)]
pub enum Fault {
    CutOff = 1,
    RecordKind,
    BodyLength,
    ObjectBehindConstraint,
    OverLimit,
    NotInTable,
    StatedWeight,
    BadEnd,
    BytesBehindEnd,
    KOutOfRange,
    NoSuchConstraint,
    TooShort,
}

// How a call that is not refused is answered: its bytes are written, or none is dense, or the sheet does not show its claim.
#[derive(Clone, Copy, PartialEq, Eq, Debug)]
pub enum Answer {
    Given = 0,
    None = 32,
    NotShown = 33,
}

impl From<Fault> for u32 {
    ghost from_gives = { λ fault n. n ≡ fault_number fault };

    fn from(fault: Fault) -> u32 {
        // No From leads from an enum to its number.
        fault as u32
    }
}

// A fault prints as its number.
impl fmt::Display for Fault {
    fn fmt<W: fmt::Write>(&self, f: &mut fmt::Formatter<W>) -> fmt::Result {
        write!(f, "{}", u32::from(*self))
    }
}

impl Error for Fault {}

impl From<Answer> for u32 {
    ghost from_gives = { λ answer n. n ≡ answer_number answer };

    fn from(answer: Answer) -> u32 {
        // The same.
        answer as u32
    }
}

// The code of a call: C takes a number.
pub fn code(outcome: Result<Answer, Fault>) -> u32
    ensures { result ≡ outcome_code outcome }
{
    match outcome {
        Ok(answer) => u32::from(answer),
        Err(fault) => u32::from(fault),
    }
}
