//! How much a checker holds.
ghost use Rattle.std.specs.Prelude.{◌≡◌, ℕ, length, count_by};
ghost use Rattle.tspdef.specs.Paths.{branches};
ghost use Rattle.certcheck.specs.Checkers.{depth_at, cuts_at, leaf_at, is_split};
ghost use Rattle.certcheck.specs.Stages.{stage_of, Stands};

use crate::progress::{Progress, Stage};
use branchx::{Cond, Path};

/// How much of a text a checker holds.
#[derive(Clone, Copy, Debug, PartialEq, Eq)]
pub struct Sizes {
    /// The splits whose second child has not ended.
    pub depth: usize,
    /// The cuts that are listed so far.
    pub cuts: usize,
    /// The lines so far of the leaf, the comb or the odd cut that is read, its first one left out; 0 elsewhere.
    pub leaf: usize,
    /// The bytes of the line that is begun.
    pub line: usize,
}

impl Progress {
    /// How many splits have a second child that has not ended. O(depth + fixed pairs).
    pub(crate) fn depth(&self) -> usize
        ensures { result ≡ depth_at (stage_of self.now) }
    {
        match self.stage {
            Stage::Tree | Stage::Duals(_, _, _, _) => count_splits(self.path.path()),
            _ => 0,
        }
    }

    /// How many cuts are listed.
    pub(crate) fn cuts(&self) -> usize
        ensures { result ≡ cuts_at (stage_of self.now) }
    {
        match self.stage {
            Stage::Title
            | Stage::Size(_)
            | Stage::Length(_)
            | Stage::Bound
            | Stage::Tour
            | Stage::Count => 0,
            _ => self.cuts.len(),
        }
    }

    /// How many lines of a leaf, a comb or an odd cut are read behind its first.
    pub(crate) fn leaf(&self) -> usize
        requires { (n : ℕ) × Stands n self.now }
        ensures { result ≡ leaf_at (stage_of self.now) }
    {
        match self.stage {
            Stage::Tooth(_, _, _) => 1 + self.teeth.len(),
            Stage::Pair(_, _, _) => 1 + self.pairs.len(),
            Stage::Duals(_, _, _, _) => {
                self.cities.len() + (self.cut_duals.len() + self.condition_duals.len())
            }
            _ => 0,
        }
    }
}

/// How many conditions of a path are splits.
fn count_splits(path: &Path) -> usize
    ensures { result ≡ length (branches path.now.conditions) }
{
    count_not_fixed(path.conditions())
}

/// How many conditions are no fixed pairs.
fn count_not_fixed(conditions: &[Cond]) -> usize
    ensures { result ≡ count_by is_split conditions.now }
{
    conditions.iter().filter(|cond| !cond.is_fixed()).count()
}
