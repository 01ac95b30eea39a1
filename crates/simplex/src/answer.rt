//! Answers.

use cyc::Frac;

/// What a solve found. Values are on the pairs of the program's cities, in units of 2^-20, and 0 off its columns; there
/// is one dual a row, in units, at most 2^62 in size and negative only at Eq.
#[derive(Debug, Drop)]
pub enum LpAnswer {
    /// The values meet each row and box up to less than 2^10 units, and their cost exceeds the duals' lower side by less
    /// than 2^10 times one more than the greatest cost.
    Solved {
        x: Frac,
        duals: Vec<i128>,
        gap: i128,
    },
    /// They do not; the duals are at rest.
    Rough {
        x: Frac,
        duals: Vec<i128>,
        fault: i128,
        gap: i128,
    },
}
