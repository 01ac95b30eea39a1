//! Why there is no tree to go on from.
ghost use Rattle.std.specs.Prelude.{◌≡◌};
ghost use Rattle.resume_form.specs.Resumed.{told_as};
ghost use Rattle.resume_form.specs.Told.{IsToldOf};

use certcheck::Trouble;
use std::alloc::AllocError;
use std::error::Error;
use std::fmt;

/// Why a body is not read.
#[derive(Clone, Copy, Debug, PartialEq, Eq)]
pub enum ReadError {
    /// The number of the refusal, and its line: 1 no body, 2 another number of cities, 3 a wrong length, 4 a weak leaf; and, told after
    /// all others and with line 0, 5 too many nodes.
    Refused(u32, u64),
    NoMemory,
}

impl fmt::Display for ReadError {
    fn fmt<W: fmt::Write>(&self, f: &mut fmt::Formatter<W>) -> fmt::Result {
        match self {
            ReadError::Refused(refusal, line) => write!(f, "refusal {refusal} at line {line}"),
            ReadError::NoMemory => write!(f, "no memory"),
        }
    }
}

impl Error for ReadError {}

impl From<AllocError> for ReadError {
    ghost use Rattle.resume_form.specs.declared.error.ReadError.TheVariants.{NoMemory};

    ghost from_gives = { λ _ e. e ≡ NoMemory };

    fn from(_: AllocError) -> Self {
        ReadError::NoMemory
    }
}

/// What is told of a body that is not read on.
pub(crate) fn told(trouble: Trouble) -> ReadError
    ensures { IsToldOf trouble result }
{
    match trouble {
        Trouble::NoMemory => ReadError::NoMemory,
        Trouble::Refused(refusal, line) => ReadError::Refused(number_told(refusal), line),
    }
}

/// The number on resuming of a refusal by the tests of a resumer.
fn number_told(refusal: u32) -> u32
    ensures { result ≡ told_as refusal }
{
    match refusal {
        2 => 2,
        4 => 3,
        7 => 4,
        _ => 1,
    }
}
