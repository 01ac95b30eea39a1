//! The worker with a linear program.
ghost use Rattle.std.specs.Prelude.{◌≡◌, ◌^◌, ◌<◌, ◌≤◌, ◌↔◌, true, IfOk, IsSome};
ghost use Rattle.worker.specs.Splits.{IsNeededSplit, needed_splits_stay};
ghost use Rattle.worker.specs.Works.{BeginsAt, IsWork, SplitsOnly, IsSplitting, cliques};
ghost use Rattle.grunt.specs.Whys.{IsExplained};

use crate::efforts::effort_of;
use crate::rounds::{Look, SCALE, rounds};
use crate::splits::settle;
use crate::starts::{Start, Starts, begin};
use branchx::Path;
use cutpool::CutBox;
use neigh::Neigh;
use nodelp::NodeLp;
use pricer::{Report, needed};
use std::alloc::{AllocError, Global};
use std::sync::{Arc, Mutex};
use tspinst::Instance;
use worker::{Effort, Work, Worker, first_look, level, paths_are_short};

/// The worker that closes a node by the duals of a linear program, and splits it only where that is solved to the end.
///
/// Between nodes it keeps what the children of a split node begin with. No work waits for that: where another thread is at what is
/// kept, or there is no room, nothing is kept and a node begins with its near pairs alone. What is kept costs or saves time; no
/// answer rests on it.
#[derive(Drop)]
pub struct LpWorker {
    starts: Mutex<Starts>,
}

impl LpWorker {
    /// A worker that keeps nothing yet.
    pub fn new(alloc: Global) -> LpWorker {
        LpWorker {
            starts: Mutex::new(Starts::new(alloc)),
        }
    }

    /// What is kept for a path, if that can be seen at once.
    pub(crate) fn start_for(&self, path: &Path) -> Option<Arc<Start, Global>> {
        let mut starts = self.starts.try_lock()?;
        starts.take(path)
    }

    /// Keeps a start, if there is one, for the children of a path's node, if that can be done at once.
    pub(crate) fn keep(
        &self,
        alloc: Global,
        path: &Path,
        start: Option<Start>,
    ) -> Result<(), AllocError> {
        let Some(start) = start else {
            return Ok(());
        };
        let start = Arc::new(alloc, start)?;
        if let Some(mut starts) = self.starts.try_lock() {
            starts.keep(path, start);
        }
        Ok(())
    }
}

impl Worker for LpWorker {
    ghost splits = { IsNeededSplit };

    ghost sure = { true };

    ghost splits_stay = { needed_splits_stay };

    fn work<B: CutBox>(
        &self,
        alloc: Global,
        instance: &Instance,
        near: &Neigh,
        shared: &mut B,
        path: &Path,
        best: u64,
        seed: u64,
        gap: u64,
    ) -> Result<Work, AllocError>
        requires cities { path.now.n ≡ instance.now.n }
        requires begins { BeginsAt instance.now path.now.conditions }
        requires lists { near.now.n ≡ instance.now.n }
        requires few_cliques { cliques path.now.conditions ≤ 2 ^ 21 }
        requires short { best < 2 ^ 42 }
        ensures splits { IfOk result (λ w. SplitsOnly IsNeededSplit instance.now path.now.conditions best w.report gap) }
        ensures work { IfOk result (IsWork instance.now path.now.conditions best gap) }
        ensures explained { IfOk result (IsExplained instance.now path.now.conditions best gap) }
        ensures why { IfOk result (λ w. IsSome w.why ↔ IsSplitting w.report) }
    {
        let start = self.start_for(path);
        let start = shown(&start);
        let (done, left) = work_from(alloc, instance, near, shared, path, best, seed, gap, start)?;
        self.keep(alloc, path, left)?;
        Ok(done)
    }
}

/// Works on a node by its linear relaxation, of which nothing is kept. The same seed gives the same work where the box gives the same cuts.
///
/// Zero duals close the node, or the ray where every pair is decided. Else there are up to 200 rounds: the program of the
/// node's rows and of a core of near pairs is solved; its duals close the node if the bound that they give over all pairs
/// suffices for the level; if not, cuts that the values miss are added: those that the box gives, or, where it gives none, those that
/// separation finds (subtour cuts of light sets, blossoms and combs), or, where the values miss none, undecided pairs of negative
/// reduced cost, or, where there is none, odd cuts that an exact search finds, which then comes first in the next round. At the root
/// each round asks the box, separation and the search for odd cuts. Each cut that is added is put into the box too. Where there is nothing to add, the tour to which the values lead is
/// improved and offered; if the duals do not close the node for that tour either, the node is split, and the program is
/// handed out with the reason.
///
/// A round costs a solve, O(n^2) for the bound and the prices, and for the cuts flows and a few passes over the values.
pub fn work_by_lp<B: CutBox>(
    alloc: Global,
    instance: &Instance,
    near: &Neigh,
    shared: &mut B,
    path: &Path,
    best: u64,
    seed: u64,
    gap: u64,
) -> Result<Work, AllocError>
    requires cities { path.now.n ≡ instance.now.n }
    requires begins { BeginsAt instance.now path.now.conditions }
    requires lists { near.now.n ≡ instance.now.n }
    requires few_cliques { cliques path.now.conditions ≤ 2 ^ 21 }
    requires short { best < 2 ^ 42 }
    ensures splits { IfOk result (λ w. SplitsOnly IsNeededSplit instance.now path.now.conditions best w.report gap) }
    ensures work { IfOk result (IsWork instance.now path.now.conditions best gap) }
    ensures explained { IfOk result (IsExplained instance.now path.now.conditions best gap) }
    ensures why { IfOk result (λ w. IsSome w.why ↔ IsSplitting w.report) }
{
    let (work, _) = work_from(alloc, instance, near, shared, path, best, seed, gap, None)?;
    Ok(work)
}

/// Works on a node, with what its parent left, if there is that; beside the work, what the node leaves to its children where it is split.
pub(crate) fn work_from<B: CutBox>(
    alloc: Global,
    instance: &Instance,
    near: &Neigh,
    shared: &mut B,
    path: &Path,
    best: u64,
    seed: u64,
    gap: u64,
    start: Option<&Start>,
) -> Result<(Work, Option<Start>), AllocError>
    requires cities { path.now.n ≡ instance.now.n }
    requires begins { BeginsAt instance.now path.now.conditions }
    requires lists { near.now.n ≡ instance.now.n }
    requires few_cliques { cliques path.now.conditions ≤ 2 ^ 21 }
    requires short { best < 2 ^ 42 }
    ensures splits { IfOk result (λ r. SplitsOnly IsNeededSplit instance.now path.now.conditions best r.0.report gap) }
    ensures work { IfOk result (λ r. IsWork instance.now path.now.conditions best gap r.0) }
    ensures explained { IfOk result (λ r. IsExplained instance.now path.now.conditions best gap r.0) }
    ensures why { IfOk result (λ r. IsSome r.0.why ↔ IsSplitting r.0.report) }
{
    paths_are_short();
    let _n = instance.n();
    let _conditions = path.conditions();
    if let Some(work) = first_look(alloc, instance, path, best, gap)? {
        return Ok((work, None));
    }
    let mut node = begin(alloc, instance, near, path, start)?;
    let mut spent = Effort::none();
    let wanted = level(best, gap);
    let (newest, odd) = rounds(alloc, instance, shared, path, wanted, &mut node, &mut spent)?;
    let programs = effort_of(&node).and(spent);
    let left = left_by(alloc, &node, &newest, level(best, gap))?;
    let mut work = settle(
        alloc,
        instance,
        near,
        path,
        best,
        seed,
        gap,
        node,
        newest,
        odd,
        left.as_ref(),
    )?;
    work.effort = work.effort.and(programs);
    let left = if_split(&work, left);
    Ok((work, left))
}

/// What is shared.
fn shown(start: &Option<Arc<Start, Global>>) -> Option<&Start> {
    match start {
        Some(start) => Some(&**start),
        None => None,
    }
}

/// What a node leaves, if work splits it.
fn if_split(work: &Work, left: Option<Start>) -> Option<Start> {
    match &work.report {
        Report::Split(_) => left,
        Report::Closed(_) => None,
    }
}

/// What a node leaves to its children, where its bound does not close it for tours of a length.
fn left_by(
    alloc: Global,
    node: &NodeLp,
    newest: &Look,
    length: u64,
) -> Result<Option<Start>, AllocError> {
    let gap = needed(length).saturating_sub(newest.bound);
    if gap < 0 {
        return Ok(None);
    }
    Ok(Some(Start::of(alloc, node, gap.saturating_add(SCALE))?))
}
