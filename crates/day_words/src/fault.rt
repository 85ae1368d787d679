//! Why a file or a line of it says nothing, and where.

ghost use Rattle.std.specs.Prelude.{◌≡◌};
ghost use Rattle.day_words.specs.declared.fault.FaultKind.{FaultKind as Kind};
ghost use Rattle.day_words.specs.Faults.{fault_number};

/// The kinds of faults, as they are numbered after the refusals. The first and the last are faults of a file.
#[derive(Clone, Copy, PartialEq, Eq, Debug)]
pub enum FaultKind {
    /// The first line is not the header line.
    WrongNames = 20,
    /// A line that is too long, or whose fields are not eight.
    BadLine = 21,
    /// A field that is used is blank, or one that is not used is filled.
    Blank = 22,
    /// A field is not one of the letters that are known there.
    UnknownLetter = 23,
    /// A field is not one to nine decimal digits.
    NotDigits = 24,
    /// The file is too long.
    TooLong = 25,
}

impl FaultKind {
    /// The number that stands for the kind in what is written out. No other kind has it.
    pub fn number(self) -> u32
        ensures value { result ≡ fault_number self }
        ensures only { (other : Kind) → fault_number other ≡ result → other ≡ self }
    {
        self as u32
    }
}

/// A fault of a line. Its place is that of the first byte of the wrong field, where the line's first byte is 1; a fault
/// of no field has the place 0.
#[derive(Clone, Copy, PartialEq, Eq, Debug)]
pub struct Fault {
    pub kind: FaultKind,
    pub place: u32,
}
