//! A search: in rounds by grunts in threads, then alone, with the way so far saved on and on.
ghost use Rattle.std.specs.Prelude.{◌≡◌, ◌<◌, ◌≤◌, true, false, IfOk, OnOk, OnErr, IsErrOf};
ghost use Rattle.std.specs.Arc.{arc_value};
ghost use Rattle.ports.specs.Outside.{BothTell, WhereTold, Cause};
ghost use Rattle.tspdef.specs.Trees.{open_leaves};
ghost use Rattle.treebook.specs.Tables.{tree_of};
ghost use Rattle.slotstore.specs.Standing.{StandsFor};
ghost use Rattle.tspengine.specs.Searches.{start_in, IsSearch};
ghost use Rattle.worker.specs.Splits.{IsNeededSplit};
ghost use Rattle.tspround.specs.Alone.{IsAlone};
ghost use Rattle.tspengine.specs.Rounds.{HasEnded, IsFurther, IsOnward, IsDismissed, Searches, KeepsSlots, SavesOne, FailsToSave};

use crate::crew::{Crew, Field};
use crate::outcomes::text_of;
use crate::starting::{Halt, Search};
use bossx::{Boss, events_are_charged};
use cutpool::SharedPool;
use grunt::LpWorker;
use neigh::Neigh;
use ports::{Gate, Posts, Slots};
use slotstore::Store;
use std::alloc::{AllocError, Global};
use std::sync::{Arc, Wait};
use std::thread::Threads;
use tspinst::Instance;
use tspround::{Round, alone, rounds};

/// After so many settled nodes of the search alone a body is saved.
const TURNS: u32 = 1024;

/// At so many lost leases the grunts go home, and the search goes on alone.
const MOST_LOST: u32 = 256;

/// Works until no node is open or the budget is settled: first by grunts in threads, in rounds, and then alone. After each round, and
/// after each 1,024 nodes that are settled alone, it saves a body to go on from, where a node is open and the budget is not settled.
/// One pool of cuts serves all nodes, and one worker.
pub(crate) fn search<R: Threads + Wait + Sync, L: Slots, P: Posts + Sync, G: Gate + Sync>(
    crew: &Crew<'_, R, P, G>,
    alloc: Global,
    instance: &Instance,
    search: Search,
    slots: &mut L,
    store: &mut Store,
    seed: u64,
) -> Result<Boss, Halt>
    requires stands { WhereTold (StandsFor store.old) (L.told slots.old) }
    requires search { IsSearch search.boss }
    requires instance { search.boss.instance ≡ instance.now }
    requires cities { search.near.n ≡ instance.now.n }
    ensures stands { OnOk result (WhereTold (StandsFor store.new) (L.told slots.new)) }
    ensures further { IfOk result (IsFurther search.boss) }
    ensures ended { IfOk result HasEnded }
    ensures saved { BothTell (Searches result search.boss (L.past slots.old) (L.past slots.new)) (L.told slots.old) (L.told slots.new) }
    ensures cause { Cause (IsErrOf result Halt.StoreFault) (L.faults slots.old) (L.faults slots.new) }
{
    let Search { mut boss, near } = search;
    let Ok(field) = field_of(alloc, instance, near, seed) else {
        return Err(Halt::NoMemory);
    };
    let mut left = boss.budget() + MOST_LOST + 1;
    loop {
        boss = go_on(crew, alloc, &field, boss, &mut left)?;
        if !goes_on(&boss) {
            return Ok(boss);
        }
        save(alloc, &boss, slots, store)?;
    }
}

/// What the work of a search shares.
fn field_of(alloc: Global, instance: &Instance, near: Neigh, seed: u64) -> Result<Field, AllocError>
    ensures instance { IfOk result (λ f. arc_value f.instance ≡ instance.now) }
    ensures lists { IfOk result (λ f. f.near ≡ near) }
{
    Ok(Field {
        near,
        pool: SharedPool::new(alloc, instance.n())?,
        worker: LpWorker::new(alloc),
        instance: shared(alloc, instance)?,
        seed,
    })
}

/// A copy of an instance, to be shared by threads.
fn shared(alloc: Global, instance: &Instance) -> Result<Arc<Instance, Global>, AllocError>
    ensures { IfOk result (λ a. arc_value a ≡ instance.now) }
{
    match Arc::new(alloc, instance.copy(alloc)?) {
        Ok(shared) => Ok(shared),
        Err(_) => Err(AllocError),
    }
}

/// A round of the grunts, while rounds are left and few leases are lost; else some turns alone. A round that neither settles a node
/// nor loses a lease is the last.
fn go_on<R: Threads + Wait + Sync, P: Posts + Sync, G: Gate + Sync>(
    crew: &Crew<'_, R, P, G>,
    alloc: Global,
    field: &Field,
    boss: Boss,
    left: &mut u32,
) -> Result<Boss, AllocError>
    requires search { IsSearch boss }
    requires instance { arc_value field.now.instance ≡ boss.instance }
    requires cities { field.now.near.n ≡ boss.instance.n }
    ensures further { IfOk result (IsFurther boss) }
    ensures onward { IfOk result (λ b. IsOnward boss left.old b left.new) }
{
    if *left == 0 || boss.grunts() == 0 || boss.leases().lost() >= MOST_LOST {
        *left = 0;
        return turns_alone(crew, alloc, field, boss);
    }
    let before = (boss.settled(), boss.leases().lost());
    let boss = play_round(crew, alloc, field, boss)?;
    *left = fewer(*left, before == (boss.settled(), boss.leases().lost()));
    Ok(boss)
}

/// How many rounds are left after one more: none where it got on no further.
fn fewer(left: u32, is_stuck: bool) -> u32
    requires { 0 < left }
    ensures { result < left }
{
    if is_stuck { 0 } else { left - 1 }
}

/// One round of the grunts. After it none of them holds a lease.
fn play_round<R: Threads + Wait + Sync, P: Posts + Sync, G: Gate + Sync>(
    crew: &Crew<'_, R, P, G>,
    alloc: Global,
    field: &Field,
    boss: Boss,
) -> Result<Boss, AllocError>
    requires search { IsSearch boss }
    requires some { 0 < boss.grunts }
    requires instance { arc_value field.now.instance ≡ boss.instance }
    requires cities { field.now.near.n ≡ boss.instance.n }
    ensures further { IfOk result (IsFurther boss) }
    ensures no_less { IfOk result (λ b. boss.settled ≤ b.settled) }
{
    let gap = boss.gap();
    let Round { mut boss, .. } = rounds(
        crew.rt,
        alloc,
        boss,
        &field.pool,
        Arc::try_clone(&field.instance)?,
        &field.near,
        &field.worker,
        crew.posts,
        crew.gate,
        field.seed,
        gap,
    )?;
    dismiss(&mut boss);
    Ok(boss)
}

/// Whatever a grunt still holds is lost.
fn dismiss(boss: &mut Boss)
    ensures { IsDismissed boss.old boss.new }
{
    events_are_charged();
    for grunt in 1..=boss.grunts() {
        boss.gone(grunt);
    }
}

/// So many turns alone. What the grunts found of cuts serves them too.
fn turns_alone<R: Threads + Wait + Sync, P: Posts + Sync, G: Gate + Sync>(
    crew: &Crew<'_, R, P, G>,
    alloc: Global,
    field: &Field,
    boss: Boss,
) -> Result<Boss, AllocError>
    requires search { IsSearch boss }
    requires instance { arc_value field.now.instance ≡ boss.instance }
    requires cities { field.now.near.n ≡ boss.instance.n }
    ensures { IfOk result (IsAlone IsNeededSplit TURNS boss) }
{
    let gap = boss.gap();
    let mut seat = field.pool.seat(crew.rt);
    alone(
        alloc,
        boss,
        &mut seat,
        &field.instance,
        &field.near,
        &field.worker,
        crew.gate,
        TURNS,
        field.seed,
        gap,
    )
}

/// Whether a node is open and the budget is not settled.
fn goes_on(boss: &Boss) -> bool
    ensures ended { result ≡ false → HasEnded boss.now }
    ensures some_open { result ≡ true → 0 < open_leaves (tree_of boss.now.tree.nodes) }
    ensures left { result ≡ true → boss.now.settled < boss.now.budget }
{
    let (_, tree) = boss.snapshot();
    tree.open_nodes() > 0 && boss.settled() < boss.budget()
}

/// Saves the body of a search on its way.
fn save<L: Slots>(alloc: Global, boss: &Boss, slots: &mut L, store: &mut Store) -> Result<(), Halt>
    requires stands { WhereTold (StandsFor store.old) (L.told slots.old) }
    requires search { IsSearch boss.now }
    requires some_open { 0 < open_leaves (tree_of boss.now.tree.nodes) }
    ensures stands { WhereTold (StandsFor store.new) (L.told slots.new) }
    ensures saved { OnOk result (BothTell (SavesOne boss.now (L.past slots.old) (L.past slots.new)) (L.told slots.old) (L.told slots.new)) }
    ensures failed { IsErrOf result Halt.StoreFault → BothTell (FailsToSave boss.now (L.past slots.old) (L.past slots.new)) (L.told slots.old) (L.told slots.new) }
    ensures kept { IsErrOf result Halt.NoMemory → BothTell (KeepsSlots (L.past slots.old) (L.past slots.new)) (L.told slots.old) (L.told slots.new) }
    ensures cause { Cause (IsErrOf result Halt.StoreFault) (L.faults slots.old) (L.faults slots.new) }
{
    let text = text_of(alloc, boss)?;
    match store.save(slots, &text.bytes) {
        Ok(()) => Ok(()),
        Err(_) => Err(Halt::StoreFault),
    }
}
