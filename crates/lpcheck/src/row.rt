//! Rows.
ghost use Rattle.std.specs.Prelude.{◌≡◌, ◌≤◌, length};
ghost use Rattle.lpcheck.specs.Rows.{coef};

use cyc::CitySet;

/// How a row's sum stands to its right side.
#[derive(Clone, Copy, Debug, PartialEq, Eq)]
pub enum Sense {
    Eq,
    AtLeast,
    AtMost,
}

/// A row: the values of the pairs, each as often as it crosses one of the sets, add up to the right side exactly, at
/// least or at most.
#[derive(Debug, Drop)]
pub struct Row {
    pub sense: Sense,
    /// In whole pairs, not in units.
    pub rhs: u32,
    pub sets: Vec<CitySet>,
}

impl Row {
    /// How many of the row's sets the pair crosses.
    pub fn coef(&self, u: u32, v: u32) -> u16
        requires { length self.now.sets.items ≤ 4096 }
        ensures value { result ≡ coef self.now u v }
        ensures most { result ≤ 4096 }
    {
        let mut count: u16 = 0;
        for set in &self.sets {
            if set.contains(u) != set.contains(v) {
                count += 1;
            }
        }
        count
    }
}
