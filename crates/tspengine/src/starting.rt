//! The beginning of a search: anew, or with the body of an earlier one.
ghost use Rattle.std.specs.Prelude.{◌≡◌, ◌+◌, ◌*◌, ◌-◌, ◌≤◌, List, Some, true, false, length, IfOk, IsErrOf};
ghost use Rattle.ports.specs.Outside.{WhereTold, Cause};
ghost use Rattle.tspdef.specs.Instances.{IsTourOf, length_in};
ghost use Rattle.tspdef.specs.Trees.{IsSoundFor};
ghost use Rattle.treebook.specs.Tables.{tree_of};
ghost use Rattle.slotstore.specs.Store.{loaded};
ghost use Rattle.slotstore.specs.Standing.{StandsFor};
ghost use Rattle.resume_form.specs.Resumed.{IsResumed};
ghost use Rattle.tspengine.specs.Begun.{IsFreshSearch, IsSearchFrom, IsBegun, IsBegunAnew, IsBegunWith};

use bossx::{Boss, events_are_charged};
use cyc::Tour;
use grunt::LpWorker;
use neigh::Neigh;
use opening::{Opening, find_opening};
use ports::Slots;
use resume_form::{ReadError, read};
use slotstore::{LoadError, Store};
use std::alloc::{AllocError, Global};
use treebook::Tree;
use tspinst::Instance;
use tspround::nothing_is_split_at_the_start;
use tspwords::Solve;

/// A boss, and the near lists that its instance's tours are improved over.
#[derive(Drop)]
pub struct Search {
    pub boss: Boss,
    pub near: Neigh,
}

/// What a search begins with, or why there is none.
#[derive(Drop)]
pub enum Begun {
    Search(Search),
    /// The first refusal of the body that the slots hold, and its line.
    Refused(u32, u64),
}

/// Why a search does not go on.
#[derive(Clone, Copy, Debug, PartialEq, Eq)]
pub(crate) enum Halt {
    StoreFault,
    NoMemory,
}

/// Begins the search that the words of `solve` ask for. The slots are only read.
pub(crate) fn begin<L: Slots>(
    alloc: Global,
    words: &Solve,
    instance: &Instance,
    slots: &mut L,
    store: &Store,
) -> Result<Begun, Halt>
    requires stands { WhereTold (StandsFor store.now) (L.told slots.old) }
    requires few { words.now.budget ≤ 65536 }
    requires some_grunts { 1 ≤ words.now.grunts }
    requires few_grunts { words.now.grunts ≤ 64 }
    ensures begun { IfOk result (IsBegun instance.now words.now.budget words.now.gap) }
    ensures anew { words.now.resume ≡ false → IfOk result (IsBegunAnew instance.now) }
    ensures resumed { words.now.resume ≡ true
        → IfOk result (λ b. WhereTold (λ t. IsBegunWith instance.now words.now.budget words.now.gap (loaded t) b) (L.told slots.old)) }
    ensures told { L.told slots.new ≡ L.told slots.old }
    ensures past { L.past slots.new ≡ L.past slots.old }
    ensures cause { Cause (IsErrOf result Halt.StoreFault) (L.faults slots.old) (L.faults slots.new) }
{
    if words.resume {
        resume(alloc, words, instance, slots, store)
    } else {
        let search = anew(
            alloc,
            instance,
            words.budget,
            words.grunts,
            words.seed,
            words.gap,
        )?;
        Ok(Begun::Search(search))
    }
}

/// Begins at one open node, with the opening tour.
pub(crate) fn anew(
    alloc: Global,
    instance: &Instance,
    budget: u32,
    grunts: u32,
    seed: u64,
    gap: u64,
) -> Result<Search, AllocError>
    requires few { budget ≤ 65536 }
    requires some_grunts { 1 ≤ grunts }
    requires few_grunts { grunts ≤ 64 }
    ensures { IfOk result (IsFreshSearch instance.now budget gap) }
{
    nothing_is_split_at_the_start::<LpWorker>();
    let Opening { near, tour } = find_opening(alloc, instance, seed)?;
    let tree = Tree::with_fixed(alloc, instance.n(), instance.fixed())?;
    let boss = Boss::start(alloc, instance, tree, tour, budget, grunts, gap)?;
    Ok(Search { boss, near })
}

/// Begins with the body that the slots hold.
fn resume<L: Slots>(
    alloc: Global,
    words: &Solve,
    instance: &Instance,
    slots: &mut L,
    store: &Store,
) -> Result<Begun, Halt>
    requires stands { WhereTold (StandsFor store.now) (L.told slots.old) }
    requires few { words.now.budget ≤ 65536 }
    requires some_grunts { 1 ≤ words.now.grunts }
    requires few_grunts { words.now.grunts ≤ 64 }
    ensures begun { IfOk result (IsBegun instance.now words.now.budget words.now.gap) }
    ensures resumed { IfOk result (λ b. WhereTold (λ t. IsBegunWith instance.now words.now.budget words.now.gap (loaded t) b) (L.told slots.old)) }
    ensures told { L.told slots.new ≡ L.told slots.old }
    ensures past { L.past slots.new ≡ L.past slots.old }
    ensures cause { Cause (IsErrOf result Halt.StoreFault) (L.faults slots.old) (L.faults slots.new) }
{
    match store.load(alloc, slots) {
        Ok(Some(body)) => begin_with(alloc, words, instance, &body),
        Ok(None) => Ok(Begun::Refused(1, 0)),
        Err(LoadError::StoreFault) => Err(Halt::StoreFault),
        Err(LoadError::NoMemory) => Err(Halt::NoMemory),
    }
}

/// Begins with a body, where it is one.
fn begin_with(alloc: Global, words: &Solve, instance: &Instance, body: &[u8]) -> Result<Begun, Halt>
    requires few { words.now.budget ≤ 65536 }
    requires some_grunts { 1 ≤ words.now.grunts }
    requires few_grunts { words.now.grunts ≤ 64 }
    ensures begun { IfOk result (IsBegun instance.now words.now.budget words.now.gap) }
    ensures resumed { IfOk result (IsBegunWith instance.now words.now.budget words.now.gap (Some body.now)) }
    ensures no_fault { IsErrOf result Halt.StoreFault → ⊥ }
{
    match read(alloc, instance, body, words.budget, words.gap) {
        Ok((tree, tour)) => {
            let search = go_on(
                alloc,
                instance,
                tree,
                tour,
                words.budget,
                words.grunts,
                words.seed,
                words.gap,
            )?;
            Ok(Begun::Search(search))
        }
        Err(ReadError::Refused(refusal, line)) => Ok(Begun::Refused(refusal, line)),
        Err(ReadError::NoMemory) => Err(Halt::NoMemory),
    }
}

/// Begins at a tree, with its tour; the opening tour is offered.
fn go_on(
    alloc: Global,
    instance: &Instance,
    tree: Tree,
    tour: Tour,
    budget: u32,
    grunts: u32,
    seed: u64,
    gap: u64,
) -> Result<Search, AllocError>
    requires some_grunts { 1 ≤ grunts }
    requires few_grunts { grunts ≤ 64 }
    requires cities { tree.n ≡ instance.now.n }
    requires fixed { tree.fixed ≡ instance.now.fixed }
    requires tour { IsTourOf instance.now tour }
    requires sound { IsSoundFor instance.now (length_in instance.now tour - gap) (tree_of tree.nodes) }
    requires few { length tree.nodes + 2 * budget ≤ 1048576 }
    ensures { IfOk result (IsSearchFrom instance.now budget gap (tree_of tree.nodes) (length_in instance.now tour)) }
{
    events_are_charged();
    nothing_is_split_at_the_start::<LpWorker>();
    let mut boss = Boss::start(alloc, instance, tree, tour, budget, grunts, gap)?;
    let Opening { near, tour } = find_opening(alloc, instance, seed)?;
    boss.offer(&tour);
    Ok(Search { boss, near })
}

impl From<AllocError> for Halt {
    ghost use Rattle.tspengine.specs.declared.starting.Halt.TheVariants.{NoMemory};

    ghost from_gives = { λ _ h. h ≡ NoMemory };

    fn from(_: AllocError) -> Self {
        Halt::NoMemory
    }
}
