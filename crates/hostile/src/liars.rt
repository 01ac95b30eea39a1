//! A worker that makes things up.
ghost use Rattle.std.specs.Prelude.{◌≡◌, ◌^◌, ◌<◌, false};
ghost use Rattle.worker.specs.Works.{BeginsAt, SplitsOnly};

use crate::draws::{Count, Draws};
use crate::honest::honest_work;
use crate::lies;
use branchx::Path;
use cutpool::CutBox;
use cyc::Tour;
use neigh::Neigh;
use pricer::{Fit, Report, fits};
use std::alloc::{AllocError, Global};
use tspinst::Instance;
use worker::{Effort, Work, Worker};

/// So many kinds of made-up work there are; so many of them make no closing that does not fit.
const KINDS: u64 = 14;

const FITTING_KINDS: u64 = 11;

/// A worker that makes up so many of 24 works, and else works honestly; with one honest work of 16 it tells a tour that it knows. It
/// counts the closings that it made and that do not fit the node: these cannot be priced, so they do not come to the boss.
#[derive(Drop)]
pub(crate) struct Liar {
    draws: Draws,
    lies: u64,
    kinds: u64,
    known: Vec<u32>,
    unfit: Count,
}

impl Liar {
    /// A worker that knows a tour by its cities; its closings fit where `is_fitting`.
    pub(crate) fn new(seed: u64, lies: u64, is_fitting: bool, known: Vec<u32>) -> Liar {
        Liar {
            draws: Draws::new(seed),
            lies,
            kinds: if is_fitting { FITTING_KINDS } else { KINDS },
            known,
            unfit: Count::new(),
        }
    }

    /// How many closings did not fit.
    pub(crate) fn unfit(&self) -> u64 {
        self.unfit.get()
    }

    pub(crate) fn is_honest(&self) -> bool {
        self.lies == 0
    }

    fn kind(&self, draw: u64) -> u64 {
        match self.kinds {
            FITTING_KINDS => draw % FITTING_KINDS,
            _ => draw % KINDS,
        }
    }

    fn count(&self, instance: &Instance, path: &Path, report: &Report) {
        if let Report::Closed(closing) = report {
            if !matches!(fits(instance, path, closing), Fit::Fits) {
                self.unfit.raise();
            }
        }
    }
}

impl Worker for Liar {
    ghost splits = { λ i path l b gap. Unit {0} };

    ghost sure = { false };

    ghost splits_stay = { λ i path l m b gap le s. tt };

    fn work<B: CutBox>(
        &self,
        alloc: Global,
        instance: &Instance,
        _near: &Neigh,
        _shared: &mut B,
        path: &Path,
        best: u64,
        _seed: u64,
        gap: u64,
    ) -> Result<Work, AllocError>
        requires cities { path.now.n ≡ instance.now.n }
        requires begins { BeginsAt instance.now path.now.conditions }
        requires short { best < 2 ^ 42 }
    {
        let draw = self.draws.next();
        let work = if draw % 24 < self.lies {
            made_up(alloc, instance, path, best, gap, self.kind(draw / 24), draw)?
        } else if draw / 24 % 16 == 0 {
            let cities = Vec::from_slice(alloc, &self.known)?;
            let known = lies::tour_of(alloc, instance.n(), cities)?;
            with_tour(alloc, instance, path, best, gap, known)?
        } else {
            honest_work(alloc, instance, path, best, gap)?
        };
        self.count(instance, path, &work.report);
        Ok(work)
    }
}

/// Made-up work of a kind. The closings of the first eleven fit the node.
fn made_up(
    alloc: Global,
    instance: &Instance,
    path: &Path,
    best: u64,
    gap: u64,
    kind: u64,
    draw: u64,
) -> Result<Work, AllocError>
    requires cities { path.now.n ≡ instance.now.n }
    requires begins { BeginsAt instance.now path.now.conditions }
    requires short { best < 2 ^ 42 }
{
    let n = instance.n();
    let more = draw / 1000;
    match kind {
        0 => Ok(told(lies::flat(alloc, n as usize, 0)?)),
        1 => Ok(told(lies::of_another_node(alloc, instance, path, more)?)),
        2 => Ok(told(lies::of_a_starved_city(alloc, instance, best, more)?)),
        3 => Ok(told(lies::of_another_instance(alloc, n, more)?)),
        4 => Ok(told(lies::by_a_decided_pair(path))),
        5 => Ok(told(lies::by_no_pair(n, more))),
        6 => Ok(told(lies::by_a_stale_set(alloc, n, path)?)),
        7 => Ok(told(lies::by_a_set(alloc, n, &[0, 1, 2])?)),
        8 => Ok(told(lies::by_a_set(alloc, 2000, &[0, 1999])?)),
        9 => with_tour(
            alloc,
            instance,
            path,
            best,
            gap,
            lies::tour(alloc, 2000, more)?,
        ),
        10 => with_tour(
            alloc,
            instance,
            path,
            best,
            gap,
            lies::tour(alloc, n, more)?,
        ),
        11 => Ok(told(lies::flat(alloc, n as usize + 1, 1 << 40)?)),
        12 => Ok(told(lies::past_the_path(alloc, n, (more % 64) as u32)?)),
        _ => Ok(told(lies::with_a_foreign_cut(alloc, n)?)),
    }
}

/// Honest work that tells of another tour.
fn with_tour(
    alloc: Global,
    instance: &Instance,
    path: &Path,
    best: u64,
    gap: u64,
    tour: Tour,
) -> Result<Work, AllocError>
    requires cities { path.now.n ≡ instance.now.n }
    requires begins { BeginsAt instance.now path.now.conditions }
    requires short { best < 2 ^ 42 }
{
    let mut work = honest_work(alloc, instance, path, best, gap)?;
    work.tour = Some(tour);
    Ok(work)
}

/// Work that is no more than a report.
fn told(report: Report) -> Work {
    Work {
        tour: None,
        report,
        why: None,
        hint: 7,
        effort: Effort::none(),
    }
}
