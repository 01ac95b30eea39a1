//! The end of the work on a node: a tour is offered, and the node is closed, or split with a reason.
ghost use Rattle.std.specs.Prelude.{◌≡◌, ◌<◌, ◌↔◌, ◌<ℤ◌, ◌≤ℤ◌, true, false, IfOk, IsSome};
ghost use Rattle.tspdef.specs.Paths.{DecidesAll};
ghost use Rattle.tspdef.specs.Bounds as bounds;
ghost use Rattle.branchx.specs.Branch.{IsSplit};
ghost use Rattle.treebook.specs.Tree.{branch_of};
ghost use Rattle.nodelp.specs.Node.{IsClean};
ghost use Rattle.worker.specs.Splits.{IsNeededSplit, IsOpenQuestion, IsEdge, level};
ghost use Rattle.worker.specs.Works.{IsWork, SplitsOnly, IsSplitting};
ghost use Rattle.grunt.specs.Whys.{IsExplained};
ghost use Rattle.grunt.specs.Rounds.{IsLook, HasEnded};

use crate::offers::shorter_tour;
use crate::probes::probed;
use crate::reasons::reason_of;
use crate::rounds::Look;
use crate::starts::Start;
use branchx::{Branch, Path, choose};
use cyc::Frac;
use neigh::Neigh;
use nodelp::NodeLp;
use pricer::{Report, needed};
use simplex::{Lp, LpAnswer};
use std::alloc::{AllocError, Global};
use tspinst::Instance;
use worker::{Effort, OddAnswer, Work, level, whole_length, zeros_that_close};

/// Closes a node by its newest duals, where these suffice for the level; else offers the tour to which the values lead, and closes the
/// node for that one, or splits it.
pub(crate) fn settle(
    alloc: Global,
    instance: &Instance,
    near: &Neigh,
    path: &Path,
    best: u64,
    seed: u64,
    gap: u64,
    node: NodeLp,
    newest: Look,
    odd: OddAnswer,
    left: Option<&Start>,
) -> Result<Work, AllocError>
    requires cities { path.now.n ≡ instance.now.n }
    requires lists { near.now.n ≡ instance.now.n }
    requires question { IsOpenQuestion instance.now (level best gap) path.now.conditions }
    requires look { IsLook instance.now path.now.conditions node newest }
    requires ended { HasEnded instance.now path.now.conditions (level best gap) node newest odd }
    ensures splits { IfOk result (λ w. SplitsOnly IsNeededSplit instance.now path.now.conditions best w.report gap) }
    ensures work { IfOk result (IsWork instance.now path.now.conditions best gap) }
    ensures explained { IfOk result (IsExplained instance.now path.now.conditions best gap) }
    ensures why { IfOk result (λ w. IsSome w.why ↔ IsSplitting w.report) }
{
    if suffices(&newest, level(best, gap)) {
        return Ok(Work::closed(None, newest.closing, newest.bound));
    }
    let (tour, shortest) = shorter_tour(alloc, instance, near, node.lp(), best, seed)?;
    let wanted = level(shortest, gap);
    if suffices(&newest, wanted) {
        return Ok(Work::closed(tour, newest.closing, newest.bound));
    }
    match zeros_that_close(alloc, instance, path, wanted)? {
        Some(zeros) => Ok(Work::closed(tour, zeros, newest.bound)),
        None => {
            let gap = needed(wanted).saturating_sub(newest.bound);
            let branch = branch_at(alloc, instance, path, node.lp(), left, gap)?;
            Ok(Work {
                tour,
                report: Report::Split(branch),
                why: Some(reason_of(node, odd)),
                hint: whole_length(newest.bound),
                effort: Effort {
                    split: 1,
                    ..Effort::none()
                },
            })
        }
    }
}

/// Whether the bound of a look exceeds what tours of a length need.
fn suffices(look: &Look, length: u64) -> bool
    ensures more { result ≡ true → bounds.needed length <ℤ look.now.bound }
    ensures not { result ≡ false → look.now.bound ≤ℤ bounds.needed length }
{
    look.bound > needed(length)
}

/// By what to split a node where a pair is undecided: by the choice of the values, or by what probes find to be worth more, where the
/// node leaves something to its children.
fn branch_at(
    alloc: Global,
    instance: &Instance,
    path: &Path,
    lp: &Lp,
    left: Option<&Start>,
    gap: i128,
) -> Result<Branch, AllocError>
    requires instance { path.now.n ≡ instance.now.n }
    requires cities { lp.now.n ≡ path.now.n }
    requires clean { IsClean lp.now }
    requires undecided { ¬ DecidesAll path.now.n path.now.conditions }
    ensures split { IfOk result (IsSplit path.now.n path.now.conditions) }
    ensures edge { IfOk result (λ b. path.now.n < 6 → IsEdge (branch_of b)) }
{
    let chosen = chosen(alloc, path, lp)?;
    match left {
        Some(start) => probed(alloc, instance, path, lp, values(lp), start, gap, chosen),
        None => Ok(chosen),
    }
}

/// The choice of the newest values.
fn chosen(alloc: Global, path: &Path, lp: &Lp) -> Result<Branch, AllocError>
    requires cities { lp.now.n ≡ path.now.n }
    requires clean { IsClean lp.now }
    requires undecided { ¬ DecidesAll path.now.n path.now.conditions }
    ensures split { IfOk result (IsSplit path.now.n path.now.conditions) }
    ensures edge { IfOk result (λ b. path.now.n < 6 → IsEdge (branch_of b)) }
{
    let chosen = choose(alloc, values(lp), path)?;
    match chosen {
        Some(branch) => Ok(branch),
        None => unreachable!(),
    }
}

/// The values of the newest answer.
fn values(lp: &Lp) -> &Frac
    requires { IsClean lp.now }
    ensures { result.now.n ≡ lp.now.n }
{
    match lp.last() {
        Some(LpAnswer::Solved { x, .. }) | Some(LpAnswer::Rough { x, .. }) => x,
        None => unreachable!(),
    }
}
