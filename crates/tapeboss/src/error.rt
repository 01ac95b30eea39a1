//! Why a tape is not played to its end.
ghost use Rattle.std.specs.Prelude.{◌≡◌};
ghost use Rattle.tapeboss.specs.Frames as frames;

use std::alloc::AllocError;
use std::error::Error;
use std::fmt;

/// What is wrong with a frame. Where several things are, the first of them in this order is told: a bad length, a tape that ends inside
/// the frame, a bad kind, a bad grunt, a bad text.
#[derive(Clone, Copy, Debug, PartialEq, Eq)]
pub enum Fault {
    /// The length is 0, or above 2^24.
    BadLength,
    /// The kind is unknown, or the frame has a wrong size for it.
    BadKind,
    /// The text of a report or of a tour is not of the form, or a cut of it is none.
    BadText,
    /// The tape ends inside the frame.
    Truncated,
    /// The boss has no such grunt.
    BadGrunt,
    /// Nothing else is wrong within 2^60 bytes, and more follow.
    TooLong,
}

impl Fault {
    /// The number that is told: 1 to 6, in the order of the variants.
    pub fn number(self) -> u32
        ensures { result ≡ frames.number_of self }
    {
        match self {
            Fault::BadLength => 1,
            Fault::BadKind => 2,
            Fault::BadText => 3,
            Fault::Truncated => 4,
            Fault::BadGrunt => 5,
            Fault::TooLong => 6,
        }
    }
}

/// Why a tape is not played on. The tape is used up.
#[derive(Clone, Copy, Debug, PartialEq, Eq)]
pub enum TapeError {
    /// The first fault, and the number of its frame, from 1 on.
    Bad(Fault, u64),
    NoMemory,
}

impl fmt::Display for TapeError {
    fn fmt<W: fmt::Write>(&self, f: &mut fmt::Formatter<W>) -> fmt::Result {
        match self {
            TapeError::Bad(fault, frame) => write!(f, "fault {} in frame {frame}", fault.number()),
            TapeError::NoMemory => write!(f, "no memory"),
        }
    }
}

impl Error for TapeError {}

impl From<AllocError> for TapeError {
    ghost use Rattle.tapeboss.specs.declared.error.TapeError.TheVariants.{NoMemory};

    ghost from_gives = { λ _ e. e ≡ NoMemory };

    fn from(_: AllocError) -> Self {
        TapeError::NoMemory
    }
}

/// Why a frame is not heard as an event.
#[derive(Clone, Copy, Debug, PartialEq, Eq)]
pub(crate) enum FrameError {
    Bad(Fault),
    NoMemory,
}

impl From<AllocError> for FrameError {
    ghost use Rattle.tapeboss.specs.declared.error.FrameError.TheVariants.{NoMemory};

    ghost from_gives = { λ _ e. e ≡ NoMemory };

    fn from(_: AllocError) -> Self {
        FrameError::NoMemory
    }
}
