//! Why a text is not taken.

ghost use Rattle.std.specs.Prelude.{◌≡◌, ◌++◌};
ghost use Rattle.std.specs.Option.{option_to_list};

use std::alloc::AllocError;
use std::error::Error;
use std::fmt;
use tsplex::NumberFault;

/// What a text needs before its end.
#[derive(Clone, Copy, Debug, PartialEq, Eq, Drop)]
pub enum Part {
    Type = 1,
    Dimension = 2,
    EdgeWeightType = 3,
    /// The section of coordinates or of weights that the type needs.
    Distances = 4,
}

/// Why a pair may not be fixed beside those before it.
#[derive(Clone, Copy, Debug, PartialEq, Eq, Drop)]
pub enum PairFault {
    /// Its two cities are one.
    Loop = 1,
    /// A city would have three fixed pairs.
    Third = 2,
    /// It closes a cycle that leaves out a city.
    Cycle = 3,
    /// One of its numbers is no city. In a text this is told as a bad node.
    NoCity = 4,
}

/// The first refusal of a text. The number that comes first is its line's, from 1.
#[derive(Clone, Copy, Debug, PartialEq, Eq, Drop)]
pub enum Refusal {
    /// There are more than 2^26 bytes.
    TooLong,
    /// The line begins with no keyword that is known.
    UnknownKeyword(u32),
    /// A keyword other than COMMENT comes a second time.
    Repeated(u32),
    /// TYPE is not TSP.
    WrongType(u32),
    WrongWeightType(u32),
    /// The format is not known, or it is FUNCTION at a section of weights.
    WrongWeightFormat(u32),
    /// DIMENSION is not digits of value 3 to 2000.
    WrongDimension(u32),
    /// A section comes before what it needs, or weights without EXPLICIT.
    Misplaced(u32),
    BadNumber(u32, NumberFault),
    /// The number of a node is none of 1 to the dimension, or came before.
    BadNode(u32),
    /// The weights of two cities differ. The cities count from 1, and the lower one comes first.
    Asymmetric(u32, u32, u32),
    /// The bytes end inside a section.
    Truncated,
    Missing(Part),
    /// A pair may not be fixed beside those before it. The line is its second number's.
    FixedEdges(u32, PairFault),
}

impl Refusal {
    ghost use Rattle.tspinst.specs.Refusals.{number_of, line_of, extras_of};

    /// Which refusal it is, from 1 to 14 in the order of the variants.
    pub fn number(self) -> u32
        ensures { result ≡ number_of self }
    {
        match self {
            Refusal::TooLong => 1,
            Refusal::UnknownKeyword(_) => 2,
            Refusal::Repeated(_) => 3,
            Refusal::WrongType(_) => 4,
            Refusal::WrongWeightType(_) => 5,
            Refusal::WrongWeightFormat(_) => 6,
            Refusal::WrongDimension(_) => 7,
            Refusal::Misplaced(_) => 8,
            Refusal::BadNumber(_, _) => 9,
            Refusal::BadNode(_) => 10,
            Refusal::Asymmetric(_, _, _) => 11,
            Refusal::Truncated => 12,
            Refusal::Missing(_) => 13,
            Refusal::FixedEdges(_, _) => 14,
        }
    }

    /// The line that it is on, from 1, or 0 where it is of the whole text.
    pub fn line(self) -> u32
        ensures { result ≡ line_of self }
    {
        match self {
            Refusal::TooLong | Refusal::Truncated | Refusal::Missing(_) => 0,
            Refusal::UnknownKeyword(line)
            | Refusal::Repeated(line)
            | Refusal::WrongType(line)
            | Refusal::WrongWeightType(line)
            | Refusal::WrongWeightFormat(line)
            | Refusal::WrongDimension(line)
            | Refusal::Misplaced(line)
            | Refusal::BadNumber(line, _)
            | Refusal::BadNode(line)
            | Refusal::Asymmetric(line, _, _)
            | Refusal::FixedEdges(line, _) => line,
        }
    }

    /// What more is told: the fault of a number, the two cities of an asymmetric pair, what is missing, or why a pair may not be
    /// fixed.
    pub fn extras(self) -> (Option<u32>, Option<u32>)
        ensures { option_to_list result.0 ++ option_to_list result.1 ≡ extras_of self }
    {
        match self {
            Refusal::BadNumber(_, fault) => (Some(fault as u32), None),
            Refusal::Asymmetric(_, low, high) => (Some(low), Some(high)),
            Refusal::Missing(part) => (Some(part as u32), None),
            Refusal::FixedEdges(_, fault) => (Some(fault as u32), None),
            _ => (None, None),
        }
    }
}

impl fmt::Display for Refusal {
    ghost use Rattle.std.specs.Prelude.{Some};
    ghost use Rattle.tspinst.specs.Refusals.{refusal_text};

    ghost output = { λ r. Some (refusal_text r) };

    /// Writes the number, the line and what more is told, one space between them.
    fn fmt<W: fmt::Write>(&self, f: &mut fmt::Formatter<W>) -> fmt::Result {
        let number = self.number();
        let line = self.line();
        match self.extras() {
            (Some(first), Some(second)) => write!(f, "{number} {line} {first} {second}"),
            (Some(only), None) | (None, Some(only)) => write!(f, "{number} {line} {only}"),
            (None, None) => write!(f, "{number} {line}"),
        }
    }
}

impl Error for Refusal {}

/// Why a text is not read.
#[derive(Clone, Copy, Debug, PartialEq, Eq, Drop)]
pub enum ReadError {
    NoMemory,
    /// The outside failed.
    Failed,
    Refused(Refusal),
}

impl From<Refusal> for ReadError {
    ghost use Rattle.tspinst.specs.declared.refusals.ReadError.TheVariants.{Refused};

    ghost from_gives = { λ r e. e ≡ Refused r };

    fn from(refusal: Refusal) -> Self {
        ReadError::Refused(refusal)
    }
}

impl From<AllocError> for ReadError {
    ghost use Rattle.tspinst.specs.declared.refusals.ReadError.TheVariants.{NoMemory};

    ghost from_gives = { λ _ e. e ≡ NoMemory };

    fn from(_error: AllocError) -> Self {
        ReadError::NoMemory
    }
}

impl fmt::Display for ReadError {
    fn fmt<W: fmt::Write>(&self, f: &mut fmt::Formatter<W>) -> fmt::Result {
        match self {
            ReadError::NoMemory => write!(f, "out of memory"),
            ReadError::Failed => write!(f, "the outside failed"),
            ReadError::Refused(refusal) => write!(f, "refused: {refusal}"),
        }
    }
}

impl Error for ReadError {}

/// Why pairs are not fixed.
#[derive(Clone, Copy, Debug, PartialEq, Eq, Drop)]
pub enum FixError {
    NoMemory,
    /// The pair at this place, from 0, may not be fixed beside those before it.
    BadFixed { place: usize, k: PairFault },
}

impl From<AllocError> for FixError {
    ghost use Rattle.tspinst.specs.declared.refusals.FixError.TheVariants.{NoMemory};

    ghost from_gives = { λ _ e. e ≡ NoMemory };

    fn from(_error: AllocError) -> Self {
        FixError::NoMemory
    }
}

impl fmt::Display for FixError {
    fn fmt<W: fmt::Write>(&self, f: &mut fmt::Formatter<W>) -> fmt::Result {
        match self {
            FixError::NoMemory => write!(f, "out of memory"),
            FixError::BadFixed { place, k } => {
                let k = *k as u32;
                write!(f, "pair {place} may not be fixed: {k}")
            }
        }
    }
}

impl Error for FixError {}
