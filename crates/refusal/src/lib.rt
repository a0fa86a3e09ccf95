//! Why a call refuses. Document 01, "Numbers the board logs"; docs/REFUSALS.md has what each number means.
#![tactic(auto)]

ghost use Rattle.std.specs.Prelude.{◌≡◌};
ghost use Rattle.refusal.specs.Refusal.{number_of, Decodes};

use std::error::Error;
use std::fmt;

/// Why a call refuses, in the order of document 01's numbers, 1 to 22.
#[derive(Clone, Copy, Debug, PartialEq, Eq)]
pub enum Refusal {
    /// An entry of the matrix is not finite.
    MatrixNotFinite,
    /// The bank breaks its layout.
    BankLayout,
    /// More than 1,048,576 bytes run.
    TooManyBytes,
    /// Subroutine calls are over 10 deep.
    TooDeep,
    /// A number or an escape is cut.
    Cut,
    UnknownOperator,
    MissingOperands,
    NoSuchSubroutine,
    /// A flex is not started, or has not seven points.
    Flex,
    DivByZero,
    NothingToPop,
    Seac,
    /// A number is not -32768 to below 32768 once rounded.
    OutOfRange,
    /// A quotient, a point, a stem edge or a folded value is not finite.
    NotFinite,
    /// A 257th operand, or the PostScript stack is over 256.
    StackFull,
    /// A 257th stem in force or group, or the stem store is full.
    StemsFull,
    CommandsFull,
    OutputShort,
    /// A width is not finite.
    WidthNotFinite,
    ScratchShort,
    /// The machine faults, or no point is drawn.
    NothingDrawn,
    /// A 25th operand in the strict reading.
    StrictStackFull,
}

impl Refusal {
    /// The number that the board logs.
    pub fn number(self) -> u8
        ensures { result ≡ number_of self }
    {
        match self {
            Refusal::MatrixNotFinite => 1,
            Refusal::BankLayout => 2,
            Refusal::TooManyBytes => 3,
            Refusal::TooDeep => 4,
            Refusal::Cut => 5,
            Refusal::UnknownOperator => 6,
            Refusal::MissingOperands => 7,
            Refusal::NoSuchSubroutine => 8,
            Refusal::Flex => 9,
            Refusal::DivByZero => 10,
            Refusal::NothingToPop => 11,
            Refusal::Seac => 12,
            Refusal::OutOfRange => 13,
            Refusal::NotFinite => 14,
            Refusal::StackFull => 15,
            Refusal::StemsFull => 16,
            Refusal::CommandsFull => 17,
            Refusal::OutputShort => 18,
            Refusal::WidthNotFinite => 19,
            Refusal::ScratchShort => 20,
            Refusal::NothingDrawn => 21,
            Refusal::StrictStackFull => 22,
        }
    }
}

/// A number that no refusal has.
#[derive(Clone, Copy, Debug, PartialEq, Eq)]
pub struct UnknownNumber(pub u64);

impl TryFrom<u64> for Refusal {
    type Error = UnknownNumber;

    ghost try_from_gives = { Decodes };

    fn try_from(number: u64) -> Result<Self, UnknownNumber> {
        match number {
            1 => Ok(Refusal::MatrixNotFinite),
            2 => Ok(Refusal::BankLayout),
            3 => Ok(Refusal::TooManyBytes),
            4 => Ok(Refusal::TooDeep),
            5 => Ok(Refusal::Cut),
            6 => Ok(Refusal::UnknownOperator),
            7 => Ok(Refusal::MissingOperands),
            8 => Ok(Refusal::NoSuchSubroutine),
            9 => Ok(Refusal::Flex),
            10 => Ok(Refusal::DivByZero),
            11 => Ok(Refusal::NothingToPop),
            12 => Ok(Refusal::Seac),
            13 => Ok(Refusal::OutOfRange),
            14 => Ok(Refusal::NotFinite),
            15 => Ok(Refusal::StackFull),
            16 => Ok(Refusal::StemsFull),
            17 => Ok(Refusal::CommandsFull),
            18 => Ok(Refusal::OutputShort),
            19 => Ok(Refusal::WidthNotFinite),
            20 => Ok(Refusal::ScratchShort),
            21 => Ok(Refusal::NothingDrawn),
            22 => Ok(Refusal::StrictStackFull),
            _ => Err(UnknownNumber(number)),
        }
    }
}

impl fmt::Display for Refusal {
    fn fmt<W: fmt::Write>(&self, f: &mut fmt::Formatter<W>) -> fmt::Result {
        f.write_str(match self {
            Refusal::MatrixNotFinite => "matrix entry not finite",
            Refusal::BankLayout => "bank breaks its layout",
            Refusal::TooManyBytes => "more than 1048576 bytes run",
            Refusal::TooDeep => "subroutine calls over 10 deep",
            Refusal::Cut => "number or escape cut",
            Refusal::UnknownOperator => "unknown operator",
            Refusal::MissingOperands => "operands missing",
            Refusal::NoSuchSubroutine => "no such subroutine",
            Refusal::Flex => "flex not started, or not seven points",
            Refusal::DivByZero => "div by 0",
            Refusal::NothingToPop => "pop, nothing left for it",
            Refusal::Seac => "seac",
            Refusal::OutOfRange => "number not -32768 to below 32768 once rounded",
            Refusal::NotFinite => "quotient, point, stem edge or folded value not finite",
            Refusal::StackFull => "257th operand, or PostScript stack over 256",
            Refusal::StemsFull => "257th stem in force or group, or stem store full",
            Refusal::CommandsFull => "command store full",
            Refusal::OutputShort => "output short",
            Refusal::WidthNotFinite => "a width not finite",
            Refusal::ScratchShort => "width scratch short",
            Refusal::NothingDrawn => "the machine faults, or no point is drawn",
            Refusal::StrictStackFull => "25th operand in the strict reading",
        })
    }
}

impl Error for Refusal {}
