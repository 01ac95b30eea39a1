//! Worked searches of the square, by the plain worker.
ghost use Rattle.std.specs.Prelude.{◌≡◌, ℕ, ◌+◌, ◌*◌, ◌^◌, ◌<◌, ◌≤◌, true, length, IfOk};
ghost use Rattle.tspdef.specs.Instances.{Instance as Ground};
ghost use Rattle.bossx.specs.Books.{Book};
ghost use Rattle.worker.specs.Splits.{IsNeededSplit, needed_splits_stay};
ghost use Rattle.worker.specs.Works.{BeginsAt, IsWork, SplitsOnly};
ghost use Rattle.tspround.specs.Alone.{IsSplitBy};

use bossx::{Boss, Front};
use branchx::{Branch, Path};
use cutpool::{CutBox, NoCuts};
use cyc::{CitySet, Tour};
use distx::{Kind, Point};
use neigh::{Neigh, nearest};
use ports::{Gate, OpenGate, Point as Place};
use pricer::Report;
use std::alloc::{AllocError, Global};
use std::sync::atomic::{AtomicU64, Ordering};
use std::test::Fail;
use treebook::Tree;
use tspinst::{Instance, from_points};
use tspround::{alone, alone_counted, nothing_is_split_at_the_start, report_over};
use worker::{Effort, Work, Worker, work_plainly};

/// The plain worker, which tells its seed as a number of programs.
struct Telling;

impl Worker for Telling {
    ghost splits = { IsNeededSplit };

    ghost sure = { true };

    ghost splits_stay = { needed_splits_stay };

    fn work<B: CutBox>(
        &self,
        alloc: Global,
        instance: &Instance,
        _near: &Neigh,
        _shared: &mut B,
        path: &Path,
        best: u64,
        seed: u64,
        gap: u64,
    ) -> Result<Work, AllocError>
        requires cities { path.now.n ≡ instance.now.n }
        requires begins { BeginsAt instance.now path.now.conditions }
        requires short { best < 2 ^ 42 }
        ensures splits { IfOk result (λ w. SplitsOnly IsNeededSplit instance.now path.now.conditions best w.report gap) }
        ensures work { IfOk result (IsWork instance.now path.now.conditions best gap) }
    {
        let mut work = work_plainly(alloc, instance, path, best, gap)?;
        work.effort.programs = seed;
        Ok(work)
    }
}

/// The four corners of a square of side 10.
fn square(alloc: Global) -> Result<Instance, AllocError> {
    let corners = [
        Point::new(0, 0),
        Point::new(0, 10),
        Point::new(10, 10),
        Point::new(10, 0),
    ];
    from_points(alloc, Kind::Euc, &corners)
}

/// A boss over the root of the square, with a tour of length 48, which crosses itself.
fn begin(alloc: Global, square: &Instance, budget: u32, gap: u64) -> Result<Boss, Fail>
    requires { budget ≤ 1000 }
    ensures instance { IfOk result (λ b. b.instance ≡ square.now) }
    ensures gap { IfOk result (λ b. b.gap ≡ gap) }
    ensures few { IfOk result (λ b. length b.start.nodes + 2 * b.budget ≤ 1048576) }
    ensures splits { IfOk result (IsSplitBy IsNeededSplit) }
{
    nothing_is_split_at_the_start::<Telling>();
    let tree = Tree::with_fixed(alloc, square.n(), square.fixed())?;
    let crossed = Tour::new(alloc, 4, Vec::from_slice(alloc, &[0, 2, 1, 3])?)?;
    if square.n() != 4 || !square.fixed().is_empty() {
        return Err("not the square".into());
    }
    Ok(Boss::start(alloc, square, tree, crossed, budget, 1, gap)?)
}

/// Some turns on the square, with seed 7. The boss that is left may work on.
fn go(
    alloc: Global,
    boss: Boss,
    square: &Instance,
    turns: u32,
    gap: u64,
    effort: &mut Effort,
) -> Result<Boss, Fail>
    requires instance { square.now ≡ boss.instance }
    requires gap { gap ≡ boss.gap }
    requires few { length boss.start.nodes + 2 * boss.budget ≤ 1048576 }
    requires splits { IsSplitBy IsNeededSplit boss }
    ensures instance { IfOk result (λ b. b.instance ≡ square.now) }
    ensures gap { IfOk result (λ b. b.gap ≡ gap) }
    ensures few { IfOk result (λ b. length b.start.nodes + 2 * b.budget ≤ 1048576) }
    ensures splits { IfOk result (IsSplitBy IsNeededSplit) }
{
    let _n = square.n();
    let near = nearest(alloc, square, 2)?;
    Ok(alone_counted(
        alloc,
        boss,
        &mut NoCuts,
        square,
        &near,
        &Telling,
        &OpenGate,
        turns,
        7,
        gap,
        effort,
    )?)
}

/// The same turns, uncounted.
fn go_on(alloc: Global, boss: Boss, square: &Instance, turns: u32, gap: u64) -> Result<Boss, Fail>
    requires instance { square.now ≡ boss.instance }
    requires gap { gap ≡ boss.gap }
    requires few { length boss.start.nodes + 2 * boss.budget ≤ 1048576 }
    requires splits { IsSplitBy IsNeededSplit boss }
{
    let _n = square.n();
    let near = nearest(alloc, square, 2)?;
    Ok(alone(
        alloc,
        boss,
        &mut NoCuts,
        square,
        &near,
        &Telling,
        &OpenGate,
        turns,
        7,
        gap,
    )?)
}

/// What a boss tells after some turns, and what they cost.
#[derive(Clone, Copy, Debug, PartialEq, Eq)]
struct Left {
    front: Front,
    settled: u32,
    nodes: u32,
    open: u32,
    best: u64,
    first: u64,
    effort: Effort,
}

fn left_by(boss: &Boss, effort: Effort) -> Left {
    let (_, tree) = boss.snapshot();
    Left {
        front: boss.front(),
        settled: boss.settled(),
        nodes: tree.nodes(),
        open: tree.open_nodes(),
        best: boss.best_length(),
        first: boss.first_length(),
        effort,
    }
}

/// What some turns leave of the square.
fn after(alloc: Global, budget: u32, turns: u32, gap: u64) -> Result<Left, Fail>
    requires { budget ≤ 1000 }
{
    let square = square(alloc)?;
    let mut effort = Effort::none();
    let boss = begin(alloc, &square, budget, gap)?;
    let boss = go(alloc, boss, &square, turns, gap, &mut effort)?;
    Ok(left_by(&boss, effort))
}

/// The same where other turns follow.
fn after_both(alloc: Global, turns: u32, more: u32) -> Result<Left, Fail> {
    let square = square(alloc)?;
    let mut effort = Effort::none();
    let boss = begin(alloc, &square, 100, 0)?;
    let boss = go(alloc, boss, &square, turns, 0, &mut effort)?;
    let boss = go(alloc, boss, &square, more, 0, &mut effort)?;
    Ok(left_by(&boss, effort))
}

/// The same by turns that are not counted.
fn after_uncounted(alloc: Global, turns: u32) -> Result<Left, Fail> {
    let square = square(alloc)?;
    let boss = begin(alloc, &square, 100, 0)?;
    let boss = go_on(alloc, boss, &square, turns, 0)?;
    Ok(left_by(&boss, Effort::none()))
}

#[test]
fn the_square_is_solved_from_a_crossed_tour(rt: HostRuntime) -> Result<(), Fail> {
    let left = after(rt.alloc(), 200, 200, 0)?;
    assert_eq!(rt; left.front, Front::Done);
    assert_eq!(rt; left.open, 0);
    assert_eq!(rt; (left.first, left.best), (48, 40));
    Ok(())
}

#[test]
fn each_settled_node_is_counted(rt: HostRuntime) -> Result<(), Fail> {
    let left = after(rt.alloc(), 200, 200, 0)?;
    let effort = left.effort;
    assert!(rt; 0 < effort.split);
    assert_eq!(rt; effort.closed, effort.split.saturating_add(1));
    assert_eq!(rt;
        effort.closed.saturating_add(effort.split),
        u64::from(left.settled)
    );
    Ok(())
}

#[test]
fn the_seed_goes_to_each_work(rt: HostRuntime) -> Result<(), Fail> {
    let left = after(rt.alloc(), 200, 200, 0)?;
    let seeds = u64::from(left.settled).saturating_mul(7);
    assert_eq!(rt; left.effort.programs, seeds);
    Ok(())
}

#[test]
fn a_budget_of_one_is_spent_by_the_root(rt: HostRuntime) -> Result<(), Fail> {
    let left = after(rt.alloc(), 1, 5, 0)?;
    assert_eq!(rt; left.front, Front::Spent);
    assert_eq!(rt; (left.settled, left.nodes, left.open), (1, 3, 2));
    assert_eq!(rt; left.effort.split, 1);
    Ok(())
}

#[test]
fn no_turn_does_nothing(rt: HostRuntime) -> Result<(), Fail> {
    let left = after(rt.alloc(), 100, 0, 0)?;
    assert_eq!(rt; left.front, Front::Node(0));
    assert_eq!(rt; (left.settled, left.nodes, left.open), (0, 1, 1));
    Ok(())
}

#[test]
fn the_first_turn_splits_the_root(rt: HostRuntime) -> Result<(), Fail> {
    let left = after(rt.alloc(), 100, 1, 0)?;
    assert_eq!(rt; left.front, Front::Node(1));
    assert_eq!(rt; left.settled, 1);
    Ok(())
}

#[test]
fn two_turns_are_one_after_another(rt: HostRuntime) -> Result<(), Fail> {
    let two = after(rt.alloc(), 100, 2, 0)?;
    let both = after_both(rt.alloc(), 1, 1)?;
    assert_eq!(rt; two.settled, 2);
    assert_eq!(rt; two, both);
    Ok(())
}

#[test]
fn uncounted_turns_do_the_same(rt: HostRuntime) -> Result<(), Fail> {
    let left = after_uncounted(rt.alloc(), 5)?;
    assert_eq!(rt; (left.settled, left.nodes, left.open), (5, 11, 6));
    Ok(())
}

#[test]
fn a_gap_as_long_as_the_tour_closes_the_root(rt: HostRuntime) -> Result<(), Fail> {
    let left = after(rt.alloc(), 100, 100, 48)?;
    assert_eq!(rt; left.front, Front::Done);
    assert_eq!(rt; left.settled, 1);
    assert_eq!(rt; left.best, 48);
    Ok(())
}

/// The pair of the first two cities among six, made a set of the square.
fn pair_over(alloc: Global) -> Result<Option<CitySet>, Fail> {
    let square = square(alloc)?;
    let pair = CitySet::new(alloc, 6, Vec::from_slice(alloc, &[0, 1])?)?;
    if square.n() != 4 || !pair.is_proper() || pair.n() != 6 {
        return Err("not the pair".into());
    }
    match report_over(alloc, &square, Report::Split(Branch::Clique(pair)))? {
        Report::Split(Branch::Clique(set)) => Ok(Some(set)),
        Report::Split(Branch::Edge(_, _)) | Report::Closed(_) => Ok(None),
    }
}

#[test]
fn a_set_among_more_cities_is_made_one_of_the_square(rt: HostRuntime) -> Result<(), Fail> {
    match pair_over(rt.alloc())? {
        Some(set) => {
            assert_eq!(rt; set.n(), 4);
            assert_eq!(rt; set.cities(), [0, 1].as_slice());
        }
        None => return Err("another report".into()),
    }
    Ok(())
}

/// Counts what it is told, and keeps the numbers of settled nodes as the digits of one number.
#[derive(Drop)]
struct Counting {
    told: AtomicU64,
    settled: AtomicU64,
}

impl Gate for Counting {
    fn pass(&self, _grunt: u32, _lease: u32, _point: Place) {}

    fn stands(&self, best: u64, open: u32, settled: u32, least_key: Option<i64>) {
        let is_known = best == 48 && (open == 0) == least_key.is_none();
        self.told.fetch_add(u64::from(is_known), Ordering::SeqCst);
        let before = self.settled.load(Ordering::SeqCst);
        self.settled.store(
            before.wrapping_mul(10).wrapping_add(u64::from(settled)),
            Ordering::SeqCst,
        );
    }
}

/// What a gate is told of some turns on the square: how often, and after how many settled nodes each time.
fn told(alloc: Global, turns: u32) -> Result<(u64, u64), Fail> {
    let square = square(alloc)?;
    let near = nearest(alloc, &square, 2)?;
    let gate = Counting {
        told: AtomicU64::new(0),
        settled: AtomicU64::new(0),
    };
    let boss = begin(alloc, &square, 100, 0)?;
    alone(
        alloc,
        boss,
        &mut NoCuts,
        &square,
        &near,
        &Telling,
        &gate,
        turns,
        7,
        0,
    )?;
    Ok((
        gate.told.load(Ordering::SeqCst),
        gate.settled.load(Ordering::SeqCst),
    ))
}

#[test]
fn a_gate_is_told_after_each_turn(rt: HostRuntime) -> Result<(), Fail> {
    assert_eq!(rt; told(rt.alloc(), 0)?, (0, 0));
    assert_eq!(rt; told(rt.alloc(), 3)?, (3, 123));
    Ok(())
}
