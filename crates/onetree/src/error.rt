//! Why a certificate was not written.
ghost use Rattle.std.specs.Prelude.{◌≡◌};

use ports::Failed;
use std::alloc::AllocError;
use std::error::Error;
use std::fmt;

/// Why a certificate was not written.
#[derive(Clone, Copy, Debug, PartialEq, Eq)]
pub enum WriteError {
    /// There is no memory.
    NoMemory,
    /// The outside failed.
    Failed,
}

impl fmt::Display for WriteError {
    fn fmt<W: fmt::Write>(&self, f: &mut fmt::Formatter<W>) -> fmt::Result {
        match self {
            WriteError::NoMemory => write!(f, "out of memory"),
            WriteError::Failed => write!(f, "the outside failed"),
        }
    }
}

impl Error for WriteError {}

impl From<AllocError> for WriteError {
    ghost use Rattle.onetree.specs.declared.error.WriteError.TheVariants.{NoMemory};

    ghost from_gives = { λ _ e. e ≡ NoMemory };

    fn from(_: AllocError) -> Self {
        WriteError::NoMemory
    }
}

impl From<Failed> for WriteError {
    ghost use Rattle.onetree.specs.declared.error.WriteError.TheVariants as e;

    ghost from_gives = { λ _ error. error ≡ e.Failed };

    fn from(_: Failed) -> Self {
        WriteError::Failed
    }
}
