//! The search of one worker.
ghost use Rattle.std.specs.Prelude.{◌≡◌, ◌+◌, ◌*◌, ◌<◌, ◌≤◌, ◌⊎◌, true, length, IfOk, IfSome, IfNone, OnOk};
ghost use Rattle.tspdef.specs.Instances.{IsTourOf};
ghost use Rattle.bossx.specs.Judging.{MayBeTaken};
ghost use Rattle.bossx.specs.Steps.{IsInFront, count_open};
ghost use Rattle.tspround.specs.Alone.{IsAlone, IsOffered, IsReported, IsSplitBy, IsTurn, HasEnded};

use crate::sets::report_over;
use bossx::{Boss, Brought, Front, events_have_no_choice};
use cutpool::CutBox;
use cyc::Tour;
use neigh::Neigh;
use ports::Gate;
use pricer::Report;
use std::alloc::{AllocError, Global};
use treebook::{tables_are_trees, tables_grow};
use tspinst::Instance;
use worker::{Effort, Work, Worker};

/// Lets a sure worker work on the open nodes of a boss, the one with the least number first, until none is open, the budget is spent,
/// or so many turns are over. In a turn a tour that the worker finds is offered, and its report on the node is the boss's own: the
/// node is closed or split. The box is handed to each work on a node, so cuts of one may serve another. The same seed goes to each.
/// After each turn the gate is told how the search stands.
///
/// The instance and the gap are the boss's. Each node split since the boss's start was one that may be split where tours are known
/// of the length that the boss started with; so it is afterwards.
pub fn alone<W: Worker, B: CutBox, G: Gate>(
    alloc: Global,
    boss: Boss,
    shared: &mut B,
    instance: &Instance,
    near: &Neigh,
    worker: &W,
    gate: &G,
    turns: u32,
    seed: u64,
    gap: u64,
) -> Result<Boss, AllocError>
    requires sure { W.sure ≡ true }
    requires instance { instance.now ≡ boss.instance }
    requires gap { gap ≡ boss.gap }
    requires lists { near.now.n ≡ instance.now.n }
    requires few { length boss.start.nodes + 2 * boss.budget ≤ 1048576 }
    requires splits { IsSplitBy W.splits boss }
    ensures { IfOk result (IsAlone W.splits turns boss) }
{
    let mut effort = Effort::none();
    alone_counted(
        alloc,
        boss,
        shared,
        instance,
        near,
        worker,
        gate,
        turns,
        seed,
        gap,
        &mut effort,
    )
}

/// The same; what the work cost is added to `effort`.
pub fn alone_counted<W: Worker, B: CutBox, G: Gate>(
    alloc: Global,
    mut boss: Boss,
    shared: &mut B,
    instance: &Instance,
    near: &Neigh,
    worker: &W,
    gate: &G,
    turns: u32,
    seed: u64,
    gap: u64,
    effort: &mut Effort,
) -> Result<Boss, AllocError>
    requires sure { W.sure ≡ true }
    requires instance { instance.now ≡ boss.instance }
    requires gap { gap ≡ boss.gap }
    requires lists { near.now.n ≡ instance.now.n }
    requires few { length boss.start.nodes + 2 * boss.budget ≤ 1048576 }
    requires splits { IsSplitBy W.splits boss }
    ensures { IfOk result (IsAlone W.splits turns boss) }
{
    take_turns(
        alloc, &mut boss, shared, instance, near, worker, gate, turns, seed, gap, effort,
    )?;
    Ok(boss)
}

fn take_turns<W: Worker, B: CutBox, G: Gate>(
    alloc: Global,
    boss: &mut Boss,
    shared: &mut B,
    instance: &Instance,
    near: &Neigh,
    worker: &W,
    gate: &G,
    turns: u32,
    seed: u64,
    gap: u64,
    effort: &mut Effort,
) -> Result<(), AllocError>
    requires sure { W.sure ≡ true }
    requires instance { instance.now ≡ boss.old.instance }
    requires gap { gap ≡ boss.old.gap }
    requires lists { near.now.n ≡ instance.now.n }
    requires few { length boss.old.start.nodes + 2 * boss.old.budget ≤ 1048576 }
    requires splits { IsSplitBy W.splits boss.old }
    ensures { OnOk result (IsAlone W.splits turns boss.old boss.new) }
{
    for _ in 0..turns {
        let Some(node) = next_node(boss) else {
            return Ok(());
        };
        let cost = turn(alloc, boss, shared, instance, near, worker, node, seed, gap)?;
        *effort = effort.and(cost);
        tell(gate, boss);
    }
    Ok(())
}

/// Tells the gate how the search stands. O(1).
fn tell<G: Gate>(gate: &G, boss: &Boss) {
    let (_, tree) = boss.snapshot();
    gate.stands(
        boss.best_length(),
        tree.open_nodes(),
        boss.settled(),
        boss.least_key(),
    );
}

/// The open node with the least number, unless the budget is spent.
fn next_node(boss: &Boss) -> Option<u32>
    ensures node { IfSome result (λ node. IsInFront boss.now (Front.Node node)) }
    ensures none { IfNone result ((count_open boss.now ≡ 0) ⊎ (boss.now.settled ≡ boss.now.budget)) }
{
    match boss.front() {
        Front::Node(node) => Some(node),
        Front::Done | Front::Spent => None,
    }
}

/// Lets the worker work on the node in front, offers the tour that it found, and closes or splits the node. What the work cost is told.
fn turn<W: Worker, B: CutBox>(
    alloc: Global,
    boss: &mut Boss,
    shared: &mut B,
    instance: &Instance,
    near: &Neigh,
    worker: &W,
    node: u32,
    seed: u64,
    gap: u64,
) -> Result<Effort, AllocError>
    requires sure { W.sure ≡ true }
    requires instance { instance.now ≡ boss.old.instance }
    requires gap { gap ≡ boss.old.gap }
    requires lists { near.now.n ≡ instance.now.n }
    requires few { length boss.old.start.nodes + 2 * boss.old.budget ≤ 1048576 }
    requires node { IsInFront boss.old (Front.Node node) }
    ensures { OnOk result (IsTurn W.splits boss.old boss.new) }
{
    tables_are_trees();
    tables_grow();
    let _book = boss.snapshot();
    let path = boss.path(alloc, node)?;
    let best = boss.best_length();
    let work = worker.work(alloc, instance, near, shared, &path, best, seed, gap)?;
    let (tour, report, effort) = parts(work);
    let report = report_over(alloc, instance, report)?;
    offer(boss, tour);
    report_on(boss, node, report);
    Ok(effort)
}

/// The tour and the report of work, and what it cost.
fn parts(work: Work) -> (Option<Tour>, Report, Effort)
    ensures tour { result.0 ≡ work.tour }
    ensures report { result.1 ≡ work.report }
{
    let Work {
        tour,
        report,
        effort,
        ..
    } = work;
    (tour, report, effort)
}

/// Offers a tour that was found, if there is one.
fn offer(boss: &mut Boss, tour: Option<Tour>)
    requires { IfSome tour (IsTourOf boss.old.instance) }
    ensures { IsOffered tour boss.old boss.new }
{
    events_have_no_choice();
    if let Some(tour) = tour {
        let _ = boss.offer(&tour);
    }
}

/// Closes or splits the node in front by a report that may be taken.
fn report_on(boss: &mut Boss, node: u32, report: Report)
    requires front { IsInFront boss.old (Front.Node node) }
    requires taken { MayBeTaken boss.old node (Brought.Plain report) }
    ensures { IsReported node report boss.old boss.new }
{
    events_have_no_choice();
    let _ = boss.own(node, report);
}
