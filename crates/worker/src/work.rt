//! What work on a node gives.
ghost use Rattle.std.specs.Prelude.{◌≡◌, None};
ghost use Rattle.pricer.specs.declared.closing.Report as reports;

use crate::effort::Effort;
use crate::levels::whole_length;
use cyc::Tour;
use pricer::{Closing, Report};
use sepodd::OddCut;
use simplex::Lp;

/// What an exact search for odd cuts answered, at the values of a checked answer, each cut down to one length.
#[derive(Debug, Drop)]
pub enum OddAnswer {
    /// It was not asked: the values at some city add up to more than two lengths and 2^10 units.
    NotAsked,
    /// No odd cut weighs less than one length.
    NoneBelow,
    /// An odd cut of least weight, below one length, that the values as they are violate by less than 2^10 units.
    Least(OddCut),
}

/// Why a worker with a linear program splits; each carries the program as it stood at its last solve.
#[derive(Drop)]
pub enum Why {
    /// It was solved often enough.
    Rounds(Lp),
    /// Its answer is rough, and no column is missing.
    Rough(Lp),
    /// Its answer is checked, and no row and no column is missing; with what the exact search for odd cuts answered.
    Checked(Lp, OddAnswer),
}

/// A report on a node, with a tour that was found on the way, the reason of a split where a linear program has one, the node's
/// bound rounded down to a whole length as a hint, and what the work cost. No promise rests on the hint.
#[derive(Drop)]
pub struct Work {
    pub tour: Option<Tour>,
    pub report: Report,
    pub why: Option<Why>,
    pub hint: i64,
    pub effort: Effort,
}

impl Work {
    /// A closing with its bound in units as work, without a reason.
    pub fn closed(tour: Option<Tour>, closing: Closing, bound: i128) -> Work
        ensures tour { result.tour ≡ tour }
        ensures report { result.report ≡ reports.Report.Closed closing }
        ensures why { result.why ≡ None }
    {
        Work {
            tour,
            report: Report::Closed(closing),
            why: None,
            hint: whole_length(bound),
            effort: Effort {
                closed: 1,
                ..Effort::none()
            },
        }
    }
}
