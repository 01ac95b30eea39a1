//! What is answered about certificates, and why there is none.
ghost use Rattle.std.specs.Prelude.{◌≡◌, ◌↔◌};

use ports::ReadError;
use std::alloc::AllocError;
use std::error::Error;
use std::fmt;

/// What a reader of certificates answers.
#[derive(Clone, Copy, Debug, PartialEq, Eq)]
pub enum Answer {
    /// The text is an accepted certificate that no tour is shorter than this.
    Yes(u64),
    /// The number of the refusal and its line: 1 no certificate, 2 another number of cities, 7 a bound that the duals do not prove.
    No(u32, u64),
}

/// Why there is no answer about a certificate.
#[derive(Clone, Copy, Debug, PartialEq, Eq)]
pub enum CheckError {
    /// A read failed.
    Failed,
    /// There is no memory for the text or its value.
    NoMemory,
}

impl fmt::Display for CheckError {
    fn fmt<W: fmt::Write>(&self, f: &mut fmt::Formatter<W>) -> fmt::Result {
        match self {
            CheckError::Failed => write!(f, "a read failed"),
            CheckError::NoMemory => write!(f, "out of memory"),
        }
    }
}

impl Error for CheckError {}

impl From<AllocError> for CheckError {
    ghost use Rattle.onetree.specs.declared.answer.CheckError.TheVariants.{NoMemory};

    ghost from_gives = { λ _ e. e ≡ NoMemory };

    fn from(_: AllocError) -> Self {
        CheckError::NoMemory
    }
}

impl CheckError {
    /// The error of a text that was not read: one that is too long for memory is want of memory.
    pub(crate) fn of_read(error: ReadError) -> CheckError
        ensures { result ≡ CheckError.Failed ↔ error ≡ ReadError.Failed }
    {
        match error {
            ReadError::Failed => CheckError::Failed,
            ReadError::NoMemory | ReadError::TooLong => CheckError::NoMemory,
        }
    }
}
