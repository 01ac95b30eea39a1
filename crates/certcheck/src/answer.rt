//! What a verifier answers.
ghost use Rattle.std.specs.Prelude.{◌≡◌};
ghost use Rattle.certcheck.specs.Answers.{Tells};

use ports::Failed;
use std::alloc::{AllocError, AllocFailed};
use std::error::Error;
use std::fmt;

/// A verifier's verdict.
#[derive(Clone, Copy, Debug, PartialEq, Eq)]
pub enum Answer {
    /// The text is an accepted proof that no tour is shorter than the bound, which is at most the length of its tour; where they are equal,
    /// the tour is shortest.
    Yes {
        /// The length of the tour.
        length: u64,
        /// What no tour is shorter than.
        bound: u64,
    },
    /// The number of the first refusal, from 1 to 11, and its line.
    No(u32, u64),
}

/// Why there is no verdict.
#[derive(Clone, Copy, Debug, PartialEq, Eq)]
pub enum CheckError {
    /// A read failed.
    Failed,
    NoMemory,
}

impl fmt::Display for CheckError {
    fn fmt<W: fmt::Write>(&self, f: &mut fmt::Formatter<W>) -> fmt::Result {
        match self {
            CheckError::Failed => write!(f, "a read failed"),
            CheckError::NoMemory => write!(f, "no memory"),
        }
    }
}

impl Error for CheckError {}

impl From<AllocError> for CheckError {
    ghost use Rattle.certcheck.specs.declared.answer.CheckError.TheVariants.{NoMemory};

    ghost from_gives = { λ _ e. e ≡ NoMemory };

    fn from(_: AllocError) -> Self {
        CheckError::NoMemory
    }
}

impl From<Failed> for CheckError {
    ghost use Rattle.certcheck.specs.declared.answer.CheckError.TheVariants as e;

    ghost from_gives = { λ _ error. error ≡ e.Failed };

    fn from(_: Failed) -> Self {
        CheckError::Failed
    }
}

/// Why a text is not read on.
#[derive(Clone, Copy, Debug, PartialEq, Eq)]
pub enum Trouble {
    NoMemory,
    /// The number of the refusal, from 1 to 11, and its line.
    Refused(u32, u64),
}

impl fmt::Display for Trouble {
    fn fmt<W: fmt::Write>(&self, f: &mut fmt::Formatter<W>) -> fmt::Result {
        match self {
            Trouble::NoMemory => write!(f, "no memory"),
            Trouble::Refused(refusal, line) => write!(f, "refusal {refusal} at line {line}"),
        }
    }
}

impl Error for Trouble {}

impl Trouble {
    /// The answer that a refusal is.
    pub(crate) fn answer(self) -> Result<Answer, CheckError>
        ensures { Tells self result }
    {
        match self {
            Trouble::NoMemory => Err(CheckError::NoMemory),
            Trouble::Refused(refusal, line) => Ok(Answer::No(refusal, line)),
        }
    }
}

impl From<AllocError> for Trouble {
    ghost use Rattle.certcheck.specs.declared.answer.Trouble.TheVariants.{NoMemory};

    ghost from_gives = { λ _ e. e ≡ NoMemory };

    fn from(_: AllocError) -> Self {
        Trouble::NoMemory
    }
}

impl<T: Drop> From<AllocFailed<T>> for Trouble {
    ghost use Rattle.certcheck.specs.declared.answer.Trouble.TheVariants.{NoMemory};

    ghost from_gives = { λ _ e. e ≡ NoMemory };

    fn from(_: AllocFailed<T>) -> Self {
        Trouble::NoMemory
    }
}
