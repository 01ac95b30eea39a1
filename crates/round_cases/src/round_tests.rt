//! Rounds in threads, by the plain worker.
ghost use Rattle.std.specs.Prelude.{◌≡◌, ◌+◌, ◌*◌, ◌^◌, ◌<◌, ◌≤◌, false, length, IfOk};
ghost use Rattle.std.specs.Arc.{arc_value};
ghost use Rattle.worker.specs.Splits.{IsNeededSplit, needed_splits_stay};
ghost use Rattle.worker.specs.Works.{BeginsAt, SplitsOnly};
ghost use Rattle.tspround.specs.Alone.{IsSplitBy};

use bossx::Boss;
use branchx::Path;
use cutpool::{CutBox, SharedPool};
use cyc::Tour;
use distx::{Kind, Point as Place};
use neigh::{Neigh, nearest};
use ports::{Fate, Gate, OpenGate, PlainPosts, Point, Posts};
use std::alloc::{AllocError, Global};
use std::sync::atomic::{AtomicU64, Ordering};
use std::sync::{Arc, Wait};
use std::test::Fail;
use std::thread;
use std::thread::Threads;
use treebook::Tree;
use tspinst::{Instance, from_points};
use tspround::{Round, nothing_is_split_at_the_start, rounds};
use worker::{PlainWorker, Work, Worker, work_plainly};

/// So often a grunt that waits for another looks for it.
const LOOKS: u32 = 10_000_000;

const OPEN: PlainPosts = PlainPosts {
    lose: 0,
    twice: false,
    late: false,
};

/// Of the leases, each fifth report comes twice, each seventh late and each eleventh never.
struct Uneven;

impl Posts for Uneven {
    ghost may_tell = { λ _ lease fate. Unit {0} };

    fn fate(&self, lease: u32) -> Fate {
        if lease % 11 == 10 {
            Fate::Never
        } else if lease % 7 == 6 {
            Fate::Late
        } else if lease % 5 == 4 {
            Fate::Twice
        } else {
            Fate::Once
        }
    }
}

/// Holds the first grunt that comes to a point with a lease of 1 or more, until another has reported on such a lease.
#[derive(Drop)]
struct Meeting {
    point: Point,
    first: AtomicU64,
    met: AtomicU64,
    missed: AtomicU64,
}

impl Meeting {
    fn new(point: Point) -> Meeting {
        Meeting {
            point,
            first: AtomicU64::new(0),
            met: AtomicU64::new(0),
            missed: AtomicU64::new(0),
        }
    }

    /// Whether another came before the looks ran out.
    fn is_met(&self) -> bool {
        for _ in 0..LOOKS {
            if self.met.load(Ordering::SeqCst) != 0 {
                return true;
            }
            thread::yield_now();
        }
        false
    }
}

impl Gate for Meeting {
    fn pass(&self, grunt: u32, lease: u32, point: Point) {
        if lease == 0 {
            return;
        }
        let me = u64::from(grunt);
        if point == self.point
            && self
                .first
                .compare_exchange(0, me, Ordering::SeqCst, Ordering::SeqCst)
                .is_ok()
            && !self.is_met()
        {
            self.missed.store(1, Ordering::SeqCst);
        }
        let first = self.first.load(Ordering::SeqCst);
        if point == Point::AfterReport && first != 0 && first != me {
            self.met.store(1, Ordering::SeqCst);
        }
    }
}

/// A plain worker whose first work below the root waits until another work is going on.
#[derive(Drop)]
struct Together {
    first: AtomicU64,
    at_work: AtomicU64,
    met: AtomicU64,
    missed: AtomicU64,
}

impl Together {
    fn new() -> Together {
        Together {
            first: AtomicU64::new(0),
            at_work: AtomicU64::new(0),
            met: AtomicU64::new(0),
            missed: AtomicU64::new(0),
        }
    }

    /// Comes to work; the first waits for another.
    fn come(&self) {
        if self.at_work.fetch_add(1, Ordering::SeqCst) != 0 {
            self.met.store(1, Ordering::SeqCst);
        }
        if self.first.fetch_add(1, Ordering::SeqCst) == 0 && !self.is_met() {
            self.missed.store(1, Ordering::SeqCst);
        }
    }

    fn go(&self) {
        self.at_work.fetch_sub(1, Ordering::SeqCst);
    }

    /// Whether another came before the looks ran out.
    fn is_met(&self) -> bool {
        for _ in 0..LOOKS {
            if self.met.load(Ordering::SeqCst) != 0 {
                return true;
            }
            thread::yield_now();
        }
        false
    }
}

impl Worker for Together {
    ghost splits = { IsNeededSplit };

    ghost sure = { false };

    ghost splits_stay = { needed_splits_stay };

    fn work<B: CutBox>(
        &self,
        alloc: Global,
        instance: &Instance,
        _near: &Neigh,
        _shared: &mut B,
        path: &Path,
        best: u64,
        _seed: u64,
        gap: u64,
    ) -> Result<Work, AllocError>
        requires cities { path.now.n ≡ instance.now.n }
        requires begins { BeginsAt instance.now path.now.conditions }
        requires short { best < 2 ^ 42 }
        ensures splits { IfOk result (λ w. SplitsOnly IsNeededSplit instance.now path.now.conditions best w.report gap) }
    {
        if path.conditions().is_empty() {
            return work_plainly(alloc, instance, path, best, gap);
        }
        self.come();
        let work = work_plainly(alloc, instance, path, best, gap);
        self.go();
        work
    }
}

/// The four corners of a square of side 10.
fn square(alloc: Global) -> Result<Instance, AllocError> {
    let corners = [
        Place::new(0, 0),
        Place::new(0, 10),
        Place::new(10, 10),
        Place::new(10, 0),
    ];
    from_points(alloc, Kind::Euc, &corners)
}

/// A boss over the root of an instance without fixed pairs, with the tour of its cities by their numbers.
fn begin(alloc: Global, instance: &Instance, budget: u32, grunts: u32) -> Result<Boss, Fail>
    requires budget { budget ≤ 1000 }
    requires some { 1 ≤ grunts }
    requires few { grunts ≤ 64 }
    ensures instance { IfOk result (λ b. b.instance ≡ instance.now) }
    ensures gap { IfOk result (λ b. b.gap ≡ 0) }
    ensures grunts { IfOk result (λ b. b.grunts ≡ grunts) }
    ensures few { IfOk result (λ b. length b.start.nodes + 2 * b.budget ≤ 1048576) }
    ensures splits { IfOk result (IsSplitBy IsNeededSplit) }
{
    nothing_is_split_at_the_start::<PlainWorker>();
    let tree = Tree::with_fixed(alloc, instance.n(), instance.fixed())?;
    let mut cities = Vec::new(alloc);
    for city in 0..instance.n() {
        cities.push(city)?;
    }
    let tour = Tour::new(alloc, instance.n(), cities)?;
    if tour.n() != instance.n() || !instance.fixed().is_empty() {
        return Err("not a tour".into());
    }
    Ok(Boss::start(alloc, instance, tree, tour, budget, grunts, 0)?)
}

/// One round of the plain worker on the square.
fn play<R: Threads + Wait + Sync, P: Posts + Sync, G: Gate + Sync>(
    rt: &R,
    alloc: Global,
    budget: u32,
    grunts: u32,
    posts: &P,
    gate: &G,
) -> Result<Round, Fail>
    requires budget { budget ≤ 1000 }
    requires some { 1 ≤ grunts }
    requires few { grunts ≤ 64 }
{
    let square = square(alloc)?;
    let near = nearest(alloc, &square, 2)?;
    let boss = begin(alloc, &square, budget, grunts)?;
    let pool = SharedPool::new(alloc, square.n())?;
    let shared = Arc::new(alloc, square)?;
    Ok(rounds(
        rt,
        alloc,
        boss,
        &pool,
        shared,
        &near,
        &PlainWorker,
        posts,
        gate,
        1,
        0,
    )?)
}

/// One round of two grunts whose work is to go on at once, on the square.
fn play_together<R: Threads + Wait + Sync>(
    rt: &R,
    alloc: Global,
    worker: &Together,
) -> Result<Round, Fail> {
    let square = square(alloc)?;
    let near = nearest(alloc, &square, 2)?;
    let boss = begin(alloc, &square, 200, 2)?;
    let pool = SharedPool::new(alloc, square.n())?;
    let shared = Arc::new(alloc, square)?;
    Ok(rounds(
        rt, alloc, boss, &pool, shared, &near, worker, &OPEN, &OpenGate, 1, 0,
    )?)
}

/// How many leases were granted, and how many reports taken, by all grunts.
fn totals(round: &Round) -> (u64, u64) {
    let mut granted = 0u64;
    let mut taken = 0u64;
    for counts in &round.counts {
        granted = granted.saturating_add(counts.granted);
        taken = taken.saturating_add(counts.taken);
    }
    (granted, taken)
}

#[test]
fn one_grunt_takes_32_leases(rt: HostRuntime) -> Result<(), Fail> {
    let round = play(&rt, rt.alloc(), 200, 1, &OPEN, &OpenGate)?;
    let (_, tree) = round.boss.snapshot();
    assert!(rt; tree.open_nodes() > 0);
    assert_eq!(rt; round.counts.len(), 1);
    assert_eq!(rt; totals(&round), (32, 32));
    assert_eq!(rt; round.boss.leases().grants(), 32);
    assert_eq!(rt; round.boss.settled(), 32);
    Ok(())
}

#[test]
fn eight_grunts_close_the_square(rt: HostRuntime) -> Result<(), Fail> {
    let round = play(&rt, rt.alloc(), 200, 8, &OPEN, &OpenGate)?;
    let (_, tree) = round.boss.snapshot();
    assert_eq!(rt; tree.open_nodes(), 0);
    assert_eq!(rt; round.boss.best_length(), 40);
    assert_eq!(rt; round.counts.len(), 8);
    let (granted, taken) = totals(&round);
    assert_eq!(rt; granted, u64::from(round.boss.leases().grants()));
    assert_eq!(rt; taken, u64::from(round.boss.settled()));
    Ok(())
}

#[test]
fn a_budget_of_one_settles_one_node(rt: HostRuntime) -> Result<(), Fail> {
    let round = play(&rt, rt.alloc(), 1, 4, &OPEN, &OpenGate)?;
    assert_eq!(rt; round.boss.settled(), 1);
    assert_eq!(rt; totals(&round).1, 1);
    Ok(())
}

#[test]
fn reports_that_never_come_settle_nothing(rt: HostRuntime) -> Result<(), Fail> {
    let posts = PlainPosts {
        lose: 300,
        twice: false,
        late: false,
    };
    let round = play(&rt, rt.alloc(), 200, 2, &posts, &OpenGate)?;
    let (granted, taken) = totals(&round);
    assert_eq!(rt; taken, 0);
    // each grunt had the 32 leases of a round, and each lease was lost
    assert_eq!(rt; granted, 64);
    assert_eq!(rt; round.boss.leases().lost(), 64);
    assert_eq!(rt; round.boss.settled(), 0);
    Ok(())
}

#[test]
fn reports_that_come_twice_or_late_are_taken_once(rt: HostRuntime) -> Result<(), Fail> {
    for late in [false, true] {
        let posts = PlainPosts {
            lose: 0,
            twice: true,
            late,
        };
        let round = play(&rt, rt.alloc(), 200, 8, &posts, &OpenGate)?;
        let (_, tree) = round.boss.snapshot();
        assert_eq!(rt; tree.open_nodes(), 0);
        assert_eq!(rt; totals(&round).1, u64::from(round.boss.settled()));
    }
    Ok(())
}

#[test]
fn two_grunts_meet_before_a_report(rt: HostRuntime) -> Result<(), Fail> {
    let gate = Meeting::new(Point::BeforeReport);
    let round = play(&rt, rt.alloc(), 200, 2, &OPEN, &gate)?;
    assert_eq!(rt; gate.missed.load(Ordering::SeqCst), 0);
    assert_eq!(rt; gate.met.load(Ordering::SeqCst), 1);
    assert_eq!(rt; round.boss.best_length(), 40);
    Ok(())
}

#[test]
fn two_grunts_meet_before_work(rt: HostRuntime) -> Result<(), Fail> {
    let gate = Meeting::new(Point::BeforeWork);
    let round = play(&rt, rt.alloc(), 200, 2, &OPEN, &gate)?;
    assert_eq!(rt; gate.missed.load(Ordering::SeqCst), 0);
    assert_eq!(rt; gate.met.load(Ordering::SeqCst), 1);
    assert_eq!(rt; round.boss.best_length(), 40);
    Ok(())
}

#[test]
fn two_grunts_work_at_once(rt: HostRuntime) -> Result<(), Fail> {
    let worker = Together::new();
    let round = play_together(&rt, rt.alloc(), &worker)?;
    assert_eq!(rt; worker.missed.load(Ordering::SeqCst), 0);
    assert_eq!(rt; worker.met.load(Ordering::SeqCst), 1);
    assert_eq!(rt; round.boss.best_length(), 40);
    Ok(())
}

#[test]
fn a_thousand_rounds_of_eight_grunts_end(rt: HostRuntime) -> Result<(), Fail> {
    for number in 0u32..1000 {
        let round = if number % 2 == 0 {
            play(&rt, rt.alloc(), 200, 8, &OPEN, &OpenGate)?
        } else {
            play(&rt, rt.alloc(), 200, 8, &Uneven, &OpenGate)?
        };
        assert_eq!(rt; totals(&round).1, u64::from(round.boss.settled()));
    }
    Ok(())
}
