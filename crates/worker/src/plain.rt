//! The plain worker.
ghost use Rattle.std.specs.Prelude.{◌≡◌, ℕ, ◌^◌, ◌<◌, ◌≤◌, ◌↔◌, true, min, List, [], None, IfOk, IfSome, IsNone, IsTrue};
ghost use Rattle.tspdef.specs.Tours.{IsTour};
ghost use Rattle.tspdef.specs.Instances.{IsTourOf, length_in};
ghost use Rattle.tspdef.specs.Paths.{DecidesAll};
ghost use Rattle.tspdef.specs.Rays.{AreStepsOf};
ghost use Rattle.branchx.specs.Branch.{IsSplit};
ghost use Rattle.treebook.specs.Tree.{branch_of};
ghost use Rattle.worker.specs.Splits.{IsOpenQuestion, IsNeededSplit, IsEdge, level, needed_splits_stay};
ghost use Rattle.worker.specs.Works.{BeginsAt, IsWork, SplitsOnly, IsSplitting, best_after};

use crate::effort::Effort;
use crate::levels::{level, whole_length};
use crate::work::Work;
use crate::workers::Worker;
use crate::zeros::{zero_bound, zeros_that_close};
use branchx::{Branch, Path, choose};
use cutpool::CutBox;
use cyc::{Frac, FracError, Tour};
use neigh::Neigh;
use pathtour::{tour_of, used_pairs_are_one_tour};
use pricer::{Report, bound, ray};
use std::alloc::{AllocError, Global};
use tspinst::Instance;

/// The worker that closes a node by zero duals or a ray, and else splits it by what `choose` takes where no pair has a value.
pub struct PlainWorker;

impl Worker for PlainWorker {
    ghost splits = { IsNeededSplit };

    ghost sure = { true };

    ghost splits_stay = { needed_splits_stay };

    fn work<B: CutBox>(
        &self,
        alloc: Global,
        instance: &Instance,
        _near: &Neigh,
        _shared: &mut B,
        path: &Path,
        best: u64,
        _seed: u64,
        gap: u64,
    ) -> Result<Work, AllocError>
        requires cities { path.now.n ≡ instance.now.n }
        requires begins { BeginsAt instance.now path.now.conditions }
        requires short { best < 2 ^ 42 }
        ensures splits { IfOk result (λ w. SplitsOnly IsNeededSplit instance.now path.now.conditions best w.report gap) }
        ensures work { IfOk result (IsWork instance.now path.now.conditions best gap) }
        ensures exactly { IfOk result (λ w. IsSplitting w.report ↔ IsOpenQuestion instance.now (level best gap) path.now.conditions) }
        ensures why { IfOk result (λ w. w.why ≡ None) }
    {
        work_plainly(alloc, instance, path, best, gap)
    }
}

/// Closes a node where zero duals or a ray do, and else splits it: exactly where zero duals do not close it for the level of the
/// best length and a gap and a pair is undecided. It gives no reason.
pub fn work_plainly(
    alloc: Global,
    instance: &Instance,
    path: &Path,
    best: u64,
    gap: u64,
) -> Result<Work, AllocError>
    requires cities { path.now.n ≡ instance.now.n }
    requires begins { BeginsAt instance.now path.now.conditions }
    requires short { best < 2 ^ 42 }
    ensures splits { IfOk result (λ w. SplitsOnly IsNeededSplit instance.now path.now.conditions best w.report gap) }
    ensures work { IfOk result (IsWork instance.now path.now.conditions best gap) }
    ensures exactly { IfOk result (λ w. IsSplitting w.report ↔ IsOpenQuestion instance.now (level best gap) path.now.conditions) }
    ensures why { IfOk result (λ w. w.why ≡ None) }
{
    if let Some(work) = first_look(alloc, instance, path, best, gap)? {
        return Ok(work);
    }
    let branch = first_branch(alloc, instance, path)?;
    Ok(Work {
        tour: None,
        report: Report::Split(branch),
        why: None,
        hint: whole_length(zero_bound(alloc, instance, path)?),
        effort: Effort {
            split: 1,
            ..Effort::none()
        },
    })
}

/// By what a node is split where no pair has a value and one is undecided.
fn first_branch(alloc: Global, instance: &Instance, path: &Path) -> Result<Branch, AllocError>
    requires cities { path.now.n ≡ instance.now.n }
    requires undecided { ¬ DecidesAll path.now.n path.now.conditions }
    ensures split { IfOk result (IsSplit path.now.n path.now.conditions) }
    ensures edge { IfOk result (λ b. path.now.n < 6 → IsEdge (branch_of b)) }
{
    let values = no_values(alloc, instance.n())?;
    match choose(alloc, &values, path)? {
        Some(branch) => Ok(branch),
        None => unreachable!(),
    }
}

/// The work on a node that needs no split: zero duals, where they close it; and where every pair is decided the tour that the
/// path leaves, if there is one, and the ray that then closes the node. Nothing where zero duals do not close it and a pair
/// is undecided.
pub fn first_look(
    alloc: Global,
    instance: &Instance,
    path: &Path,
    best: u64,
    gap: u64,
) -> Result<Option<Work>, AllocError>
    requires cities { path.now.n ≡ instance.now.n }
    requires begins { BeginsAt instance.now path.now.conditions }
    requires short { best < 2 ^ 42 }
    ensures work { IfOk result (λ w. IfSome w (IsWork instance.now path.now.conditions best gap)) }
    ensures closed { IfOk result (λ w. IfSome w (λ it. ¬ IsSplitting it.report)) }
    ensures why { IfOk result (λ w. IfSome w (λ it. it.why ≡ None)) }
    ensures none { IfOk result (λ w. IsNone w ↔ IsOpenQuestion instance.now (level best gap) path.now.conditions) }
{
    if let Some(zeros) = zeros_that_close(alloc, instance, path, level(best, gap))? {
        let bound = bound(instance, path, &zeros);
        return Ok(Some(Work::closed(None, zeros, bound)));
    }
    if has_undecided(alloc, instance, path)? {
        return Ok(None);
    }
    let (tour, shortest) = used_tour(alloc, instance, path, best)?;
    let closing = ray(alloc, instance, path, shortest)?;
    let bound = bound(instance, path, &closing);
    Ok(Some(Work::closed(tour, closing, bound)))
}

/// The lesser of two lengths.
fn lesser(a: u64, b: u64) -> u64
    ensures value { result ≡ min a b }
    ensures least { result ≤ b }
{
    a.min(b)
}

/// Whether a path leaves a pair undecided.
fn has_undecided(alloc: Global, instance: &Instance, path: &Path) -> Result<bool, AllocError>
    requires { path.now.n ≡ instance.now.n }
    ensures { IfOk result (λ b. IsTrue b ↔ (¬ DecidesAll instance.now.n path.now.conditions)) }
{
    let values = no_values(alloc, instance.n())?;
    Ok(choose(alloc, &values, path)?.is_some())
}

/// The tour whose steps are the pairs that a path uses, if there is one, and the lesser of the best length and its length. It
/// is a tour of the instance, since the path uses the fixed pairs.
fn used_tour(
    alloc: Global,
    instance: &Instance,
    path: &Path,
    best: u64,
) -> Result<(Option<Tour>, u64), AllocError>
    requires cities { path.now.n ≡ instance.now.n }
    requires begins { BeginsAt instance.now path.now.conditions }
    ensures tour { IfOk result (λ r. IfSome r.0 (IsTourOf instance.now)) }
    ensures lesser { IfOk result (λ r. r.1 ≡ best_after instance.now best r.0) }
    ensures least { IfOk result (λ r. (tour : List ℕ) → IsTour instance.now.n tour → AreStepsOf instance.now.n path.now.conditions tour
        → r.1 ≤ length_in instance.now tour) }
{
    used_pairs_are_one_tour();
    let _n = instance.n();
    match tour_of(alloc, path)? {
        Some(tour) => {
            let _whole = tour.cities();
            let length = instance.length(&tour);
            Ok((Some(tour), lesser(best, length)))
        }
        None => Ok((None, best)),
    }
}

/// No pair has a value.
fn no_values(alloc: Global, n: u32) -> Result<Frac, AllocError>
    requires many { 3 ≤ n }
    requires few { n ≤ 2000 }
    ensures { IfOk result (λ x. x ≡ record { n = n; entries = [] }) }
{
    match Frac::new(alloc, n, Vec::new(alloc)) {
        Ok(values) => Ok(values),
        Err(FracError::NoMemory) => Err(AllocError),
        Err(FracError::BadEntry(_)) => unreachable!(),
    }
}
