//! Why a proof was not written, and why a line was not read.
ghost use Rattle.std.specs.Prelude.{◌≡◌};

use ports::Failed;
use std::alloc::AllocError;
use std::error::Error;
use std::fmt;

/// Why a proof was not written.
#[derive(Clone, Copy, Debug, PartialEq, Eq)]
pub enum WriteError {
    /// There is no memory.
    NoMemory,
    /// The outside failed.
    Failed,
}

impl fmt::Display for WriteError {
    fn fmt<W: fmt::Write>(&self, f: &mut fmt::Formatter<W>) -> fmt::Result {
        match self {
            WriteError::NoMemory => write!(f, "out of memory"),
            WriteError::Failed => write!(f, "the outside failed"),
        }
    }
}

impl Error for WriteError {}

impl From<AllocError> for WriteError {
    ghost use Rattle.certform.specs.declared.error.WriteError.TheVariants.{NoMemory};

    ghost from_gives = { λ _ e. e ≡ NoMemory };

    fn from(_: AllocError) -> Self {
        WriteError::NoMemory
    }
}

impl From<Failed> for WriteError {
    ghost use Rattle.certform.specs.declared.error.WriteError.TheVariants as e;

    ghost from_gives = { λ _ error. error ≡ e.Failed };

    fn from(_: Failed) -> Self {
        WriteError::Failed
    }
}

/// Why a line was not read.
#[derive(Clone, Copy, Debug, PartialEq, Eq)]
pub enum LineError {
    /// It is no line of the form, or does not stand at its place.
    NotALine,
    /// There is no memory, or more than 2^64 - 1 trees are to come.
    NoMemory,
}

impl fmt::Display for LineError {
    fn fmt<W: fmt::Write>(&self, f: &mut fmt::Formatter<W>) -> fmt::Result {
        match self {
            LineError::NotALine => write!(f, "not a line that may come here"),
            LineError::NoMemory => write!(f, "out of memory"),
        }
    }
}

impl Error for LineError {}

impl From<AllocError> for LineError {
    ghost use Rattle.certform.specs.declared.error.LineError.TheVariants.{NoMemory};

    ghost from_gives = { λ _ e. e ≡ NoMemory };

    fn from(_: AllocError) -> Self {
        LineError::NoMemory
    }
}
