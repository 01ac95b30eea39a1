//! Why sets make no cut.
ghost use Rattle.std.specs.Prelude.{◌≡◌};

use std::alloc::{AllocError, AllocFailed};
use std::error::Error;
use std::fmt;

/// Why sets make no cut. Of several defects the first in this order is told.
#[derive(Clone, Copy, Debug, PartialEq, Eq)]
pub enum CutError {
    /// The set or the handle is empty or has all cities, or a tooth has a city that is none of the handle's n.
    NotProper = 1,
    /// The number of teeth is even, or below three; or the number of pairs is even.
    EvenTeeth = 2,
    /// Two teeth have a city in common.
    TeethMeet = 3,
    /// A tooth has no city outside the handle.
    ToothInside = 4,
    /// A tooth has no city in the handle.
    ToothOutside = 5,
    /// A pair is not of two of the handle's n cities, the lower one first, or the pairs do not rise strictly.
    NotRising = 6,
    /// A pair has both ends in the handle, or none.
    PairInside = 7,
    /// There are more than 4,095 pairs.
    TooMany = 8,
    /// Memory ran out.
    NoMemory = 9,
}

impl fmt::Display for CutError {
    fn fmt<W: fmt::Write>(&self, f: &mut fmt::Formatter<W>) -> fmt::Result {
        f.write_str(match self {
            CutError::NotProper => "a set is not proper",
            CutError::EvenTeeth =>
                "the number of teeth or of pairs is even, or that of teeth below three",
            CutError::TeethMeet => "two teeth meet",
            CutError::ToothInside => "a tooth lies inside the handle",
            CutError::ToothOutside => "a tooth lies outside the handle",
            CutError::NotRising => "the pairs do not rise",
            CutError::PairInside => "a pair does not cross the handle",
            CutError::TooMany => "there are more than 4,095 pairs",
            CutError::NoMemory => "out of memory",
        })
    }
}

impl Error for CutError {}

impl From<AllocError> for CutError {
    ghost use Rattle.cutform.specs.declared.error.CutError.TheVariants.{NoMemory};

    ghost from_gives = { λ _ e. e ≡ NoMemory };

    fn from(_: AllocError) -> Self {
        CutError::NoMemory
    }
}

impl<T: Drop> From<AllocFailed<T>> for CutError {
    ghost use Rattle.cutform.specs.declared.error.CutError.TheVariants.{NoMemory};

    ghost from_gives = { λ _ e. e ≡ NoMemory };

    fn from(_: AllocFailed<T>) -> Self {
        CutError::NoMemory
    }
}
