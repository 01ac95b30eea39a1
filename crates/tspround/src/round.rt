//! One round: the boss goes into its lock, the grunts run, and the boss comes out.
ghost use Rattle.std.specs.Prelude.{◌≡◌, ◌+◌, ◌*◌, ◌<◌, ◌≤◌, [], length, vec_len, vec_capacity, IfOk};
ghost use Rattle.std.specs.Arc.{arc_value};
ghost use Rattle.tspround.specs.Alone.{IsSplitBy};
ghost use Rattle.tspround.specs.Rounds.{IsRound, granted_by, taken_by};

use crate::held::{Held, Ledgers, Shares};
use crate::opening::Opening;
use crate::room::Room;
use crate::seat::{Counts, Seat};
use bossx::Boss;
use cutpool::SharedPool;
use neigh::Neigh;
use ports::{Gate, Posts};
use std::alloc::{AllocError, Global};
use std::marker::Brand;
use std::sync::ledger::{Blank, Ledger};
use std::sync::{Arc, Condvar, Mutex, Wait};
use std::thread;
use std::thread::Threads;
use tspinst::Instance;
use worker::Worker;

/// A boss after a round, and what each grunt's shares count.
#[derive(Drop)]
pub struct Round {
    pub boss: Boss,
    pub counts: Vec<Counts>,
}

/// One round of a boss's grunts, each in a thread: they ask the boss for nodes, work on them and report, as the posts let them. A
/// grunt takes 32 leases at most. The round ends where no node is open, the budget is spent, too many leases are lost, or each grunt
/// has had its leases. An event is one hold of the boss's lock, and nobody works or prices under it.
///
/// The instance and the gap are the boss's. Whatever worker, posts and gate do, the boss that comes out is one to which events led
/// from the given one, and each node split since the boss's start is one that the worker may split. The grants and takes of the
/// round are the sums of what the grunts count.
///
/// It may wait, and returns once each grunt has left; no clause says that it does.
///
/// # Errors
///
/// Where memory ran out, here or for a grunt.
pub fn rounds<W: Worker + Send + Sync, P: Posts + Sync, G: Gate + Sync, R: Threads + Wait + Sync>(
    rt: &R,
    alloc: Global,
    boss: Boss,
    pool: &SharedPool,
    instance: Arc<Instance, Global>,
    near: &Neigh,
    worker: &W,
    posts: &P,
    gate: &G,
    seed: u64,
    gap: u64,
) -> Result<Round, AllocError>
    requires instance { arc_value instance ≡ boss.instance }
    requires gap { gap ≡ boss.gap }
    requires lists { near.now.n ≡ boss.instance.n }
    requires few { length boss.start.nodes + 2 * boss.budget ≤ 1048576 }
    requires some { 0 < boss.grunts }
    requires splits { IsSplitBy W.splits boss }
    ensures { IfOk result (λ r. IsRound W.splits boss r.boss r.counts.items) }
{
    let grunts = u64::from(boss.grunts());
    round_of::<Brand, W, P, G, Brand, Brand, R>(
        rt,
        alloc,
        boss,
        pool,
        instance,
        near,
        worker,
        posts,
        gate,
        seed,
        gap,
        Blank::new(grunts),
        Blank::new(grunts),
    )
}

/// A round, over its book and its ledgers by name.
fn round_of<
    J: Opening + Send + Sync,
    W: Worker + Send + Sync,
    P: Posts + Sync,
    G: Gate + Sync,
    L: Ledger + Send + Sync,
    M: Ledger + Send + Sync,
    R: Threads + Wait + Sync,
>(
    rt: &R,
    alloc: Global,
    boss: Boss,
    pool: &SharedPool,
    instance: Arc<Instance, Global>,
    near: &Neigh,
    worker: &W,
    posts: &P,
    gate: &G,
    seed: u64,
    gap: u64,
    grants: Blank,
    takes: Blank,
) -> Result<Round, AllocError>
    requires opening { boss ≡ J.book }
    requires grants { (grants.name ≡ L.name) × (grants.parts ≡ L.parts) × (grants.parts ≡ boss.grunts) }
    requires takes { (takes.name ≡ M.name) × (takes.parts ≡ M.parts) × (takes.parts ≡ boss.grunts) }
    requires instance { arc_value instance ≡ boss.instance }
    requires gap { gap ≡ boss.gap }
    requires lists { near.now.n ≡ boss.instance.n }
    requires few { length boss.start.nodes + 2 * boss.budget ≤ 1048576 }
    requires some { 0 < boss.grunts }
    requires splits { IsSplitBy W.splits boss }
    ensures { IfOk result (λ r. IsRound W.splits boss r.boss r.counts.items) }
{
    let grunts = boss.grunts();
    let (grants, all_grants) = grants.open::<L>();
    let (takes, all_takes) = takes.open::<M>();
    let mut all = Shares {
        grants: all_grants,
        takes: all_takes,
    };
    let mut seats = seats_of(alloc, grunts, &mut all)?;
    let counts = Vec::with_capacity(alloc, grunts as usize)?;
    let room = Room {
        alloc,
        held: Mutex::new(Held::<J, W, L, M>::begin(boss, Ledgers { grants, takes })),
        freed: Condvar::new(),
        pool,
        instance,
        near,
        worker,
        posts,
        gate,
        seed,
        gap,
    };
    run_grunts(rt, &mut seats, &room);
    let Room { held, .. } = room;
    close_round(held.into_inner(), seats, all, counts)
}

/// The seats, one a grunt, with a part of each ledger each.
fn seats_of<J: Opening, L: Ledger, M: Ledger>(
    alloc: Global,
    grunts: u32,
    all: &mut Shares<L, M>,
) -> Result<Vec<Seat<J, L, M>>, AllocError>
    requires grunts { grunts ≡ J.book.grunts }
    requires parts { (all.old.grants.parts ≡ grunts) × (all.old.takes.parts ≡ grunts) }
    requires zero { (all.old.grants.amount ≡ 0) × (all.old.takes.amount ≡ 0) }
    ensures len { IfOk result (λ v. vec_len v ≡ grunts) }
    ensures parts { IfOk result (λ v. (all.new.grants.parts ≡ 0) × (all.new.takes.parts ≡ 0)) }
    ensures zero { IfOk result (λ v. (all.new.grants.amount ≡ 0) × (all.new.takes.amount ≡ 0)) }
{
    let mut seats = Vec::with_capacity(alloc, grunts as usize)?;
    for grunt in 1..=grunts {
        let shares = Shares {
            grants: all.grants.split_off(1, 0),
            takes: all.takes.split_off(1, 0),
        };
        seats.push(Seat::new(grunt, shares))?;
    }
    Ok(seats)
}

/// Runs each seat's grunt in a thread; a grunt whose thread cannot be started runs in this one.
fn run_grunts<
    J: Opening + Send + Sync,
    W: Worker + Send + Sync,
    P: Posts + Sync,
    G: Gate + Sync,
    L: Ledger + Send + Sync,
    M: Ledger + Send + Sync,
    R: Threads + Wait + Sync,
>(rt: &R, seats: &mut [Seat<J, L, M>], room: &Room<'_, J, W, P, G, L, M>)
    requires { 0 < length seats.old }
{
    let threads = seats.len();
    thread::for_each_mut(rt, seats, threads, &|_, seat| seat.serve(rt, room));
}

/// The boss out of its lock, and the counts of all seats, whose shares are all there are.
fn close_round<J: Opening, W: Worker, L: Ledger, M: Ledger>(
    held: Held<J, W, L, M>,
    seats: Vec<Seat<J, L, M>>,
    mut all: Shares<L, M>,
    mut counts: Vec<Counts>,
) -> Result<Round, AllocError>
    requires grants { all.grants.parts + vec_len seats ≡ L.parts }
    requires takes { all.takes.parts + vec_len seats ≡ M.parts }
    requires zero { (all.grants.amount ≡ 0) × (all.takes.amount ≡ 0) }
    requires none { counts.items ≡ [] }
    requires room { vec_len seats ≤ vec_capacity counts }
    ensures { IfOk result (λ r. IsRound W.splits J.book r.boss r.counts.items) }
{
    if gather(seats, &mut all, &mut counts) {
        return Err(AllocError);
    }
    let (boss, _) = held.into_boss(all);
    Ok(Round { boss, counts })
}

/// Takes the shares and counts of seats together; says whether one of them lacked memory.
fn gather<J: Opening, L: Ledger, M: Ledger>(
    mut seats: Vec<Seat<J, L, M>>,
    all: &mut Shares<L, M>,
    counts: &mut Vec<Counts>,
) -> bool
    requires none { counts.old.items ≡ [] }
    requires zero { (all.old.grants.amount ≡ 0) × (all.old.takes.amount ≡ 0) }
    requires room { vec_len seats ≤ vec_capacity counts.old }
    ensures grants { all.new.grants.parts ≡ all.old.grants.parts + vec_len seats }
    ensures takes { all.new.takes.parts ≡ all.old.takes.parts + vec_len seats }
    ensures granted { all.new.grants.amount ≡ granted_by counts.new.items }
    ensures taken { all.new.takes.amount ≡ taken_by counts.new.items }
{
    let mut starved = false;
    while let Some(seat) = seats.pop() {
        let Seat {
            starved: lacked,
            counts: own,
            shares,
            ..
        } = seat;
        starved |= lacked;
        all.grants.merge(shares.grants);
        all.takes.merge(shares.takes);
        counts.push_reserved(own);
    }
    starved
}
