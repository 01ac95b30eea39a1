//! Games: the rounds of a boss on a drawn instance, until no node is open or four rounds are over.
ghost use Rattle.std.specs.Prelude.{◌≡◌, ◌+◌, ◌*◌, ◌≤◌, ◌<◌, length, IfOk};
ghost use Rattle.tspround.specs.Alone.{IsSplitBy};

use crate::counting::Counting;
use crate::draws::mixed;
use crate::fates::Drawn;
use crate::judging::{is_right, least_of_all};
use crate::liars::Liar;
use crate::lies::tour;
use crate::tallies::{Stand, Tally, is_kept};
use bossx::Boss;
use cutpool::SharedPool;
use neigh::nearest;
use std::alloc::Global;
use std::sync::{Arc, Wait};
use std::test::Fail;
use std::thread::Threads;
use treebook::Tree;
use tspgen::make;
use tspinst::Instance;
use tspround::{Round, nothing_is_split_at_the_start, rounds};

/// So many nodes a game may settle.
const BUDGET: u32 = 1000;

/// What is drawn for a game.
#[derive(Clone, Copy, Debug)]
pub(crate) struct Draw {
    pub(crate) seed: u64,
    pub(crate) n: u32,
    pub(crate) grunts: u32,
    /// How many of 24 works are made up.
    pub(crate) lies: u64,
    /// Whether all made-up closings fit their nodes.
    pub(crate) is_fitting: bool,
}

/// A boss over the root of an instance without fixed pairs, with the tour of its cities by their numbers.
fn begin(alloc: Global, instance: &Instance, grunts: u32) -> Result<Boss, Fail>
    requires some { 1 ≤ grunts }
    requires few { grunts ≤ 64 }
    ensures instance { IfOk result (λ b. b.instance ≡ instance.now) }
    ensures gap { IfOk result (λ b. b.gap ≡ 0) }
    ensures grunts { IfOk result (λ b. 0 < b.grunts) }
    ensures few { IfOk result (λ b. length b.start.nodes + 2 * b.budget ≤ 1048576) }
    ensures splits { IfOk result (IsSplitBy (λ i path l b gap. Unit {0})) }
{
    nothing_is_split_at_the_start::<Liar>();
    let tree = Tree::with_fixed(alloc, instance.n(), instance.fixed())?;
    let tour = tour(alloc, instance.n(), 0)?;
    if tour.n() != instance.n() || !instance.fixed().is_empty() {
        return Err("not a tour".into());
    }
    Ok(Boss::start(alloc, instance, tree, tour, BUDGET, grunts, 0)?)
}

/// One round, with worker, posts and gate of its own.
fn play_round<R: Threads + Wait + Sync>(
    rt: &R,
    alloc: Global,
    boss: Boss,
    instance: &Instance,
    worker: &Liar,
    posts: &Drawn,
    gate: &Counting,
) -> Result<Round, Fail>
    requires instance { instance.now ≡ boss.instance }
    requires gap { boss.gap ≡ 0 }
    requires some { 0 < boss.grunts }
    requires few { length boss.start.nodes + 2 * boss.budget ≤ 1048576 }
    requires splits { IsSplitBy (λ i path l b gap. Unit {0}) boss }
    ensures instance { IfOk result (λ r. r.boss.instance ≡ instance.now) }
    ensures gap { IfOk result (λ r. r.boss.gap ≡ 0) }
    ensures grunts { IfOk result (λ r. 0 < r.boss.grunts) }
    ensures few { IfOk result (λ r. length r.boss.start.nodes + 2 * r.boss.budget ≤ 1048576) }
    ensures splits { IfOk result (λ r. IsSplitBy (λ i path l b gap. Unit {0}) r.boss) }
{
    let near = nearest(alloc, instance, 2)?;
    let pool = SharedPool::new(alloc, instance.n())?;
    let shared = Arc::new(alloc, instance.copy(alloc)?)?;
    Ok(rounds(
        rt, alloc, boss, &pool, shared, &near, worker, posts, gate, 1, 0,
    )?)
}

/// One round of a game, if a node is open.
fn play_on<R: Threads + Wait + Sync>(
    rt: &R,
    alloc: Global,
    boss: Boss,
    instance: &Instance,
    draw: Draw,
    number: u64,
    known: &[u32],
    tally: &mut Tally,
) -> Result<Boss, Fail>
    requires instance { instance.now ≡ boss.instance }
    requires gap { boss.gap ≡ 0 }
    requires some { 0 < boss.grunts }
    requires few { length boss.start.nodes + 2 * boss.budget ≤ 1048576 }
    requires splits { IsSplitBy (λ i path l b gap. Unit {0}) boss }
    ensures instance { IfOk result (λ b. b.instance ≡ instance.now) }
    ensures gap { IfOk result (λ b. b.gap ≡ 0) }
    ensures grunts { IfOk result (λ b. 0 < b.grunts) }
    ensures few { IfOk result (λ b. length b.start.nodes + 2 * b.budget ≤ 1048576) }
    ensures splits { IfOk result (IsSplitBy (λ i path l b gap. Unit {0})) }
{
    let before = Stand::of(&boss);
    if before.open == 0 {
        return Ok(boss);
    }
    let seed = mixed(draw.seed).wrapping_add(number);
    let known = Vec::from_slice(alloc, known)?;
    let worker = Liar::new(seed, draw.lies, draw.is_fitting, known);
    let posts = Drawn::new(mixed(!seed));
    let gate = Counting::new(seed);
    let Round { boss, counts } = play_round(rt, alloc, boss, instance, &worker, &posts, &gate)?;
    let kept = is_kept(&boss, &counts, before, &worker, &posts, &gate);
    tally.add_round(kept, gate.came(), &counts, worker.unfit());
    Ok(boss)
}

/// A game of at most four rounds.
pub(crate) fn play<R: Threads + Wait + Sync>(
    rt: &R,
    alloc: Global,
    draw: Draw,
    tally: &mut Tally,
) -> Result<(), Fail>
    requires many { 3 ≤ draw.n }
    requires cities { draw.n ≤ 2000 }
    requires some { 1 ≤ draw.grunts }
    requires few { draw.grunts ≤ 64 }
{
    let instance = make(alloc, draw.seed, draw.n)?;
    let (known, least) = least_of_all(alloc, &instance)?;
    let boss = begin(alloc, &instance, draw.grunts)?;
    let boss = play_on(rt, alloc, boss, &instance, draw, 0, &known, tally)?;
    let boss = play_on(rt, alloc, boss, &instance, draw, 1, &known, tally)?;
    let boss = play_on(rt, alloc, boss, &instance, draw, 2, &known, tally)?;
    let boss = play_on(rt, alloc, boss, &instance, draw, 3, &known, tally)?;
    tally.add_game(is_right(alloc, &boss, least)?, Stand::of(&boss).open == 0);
    Ok(())
}
