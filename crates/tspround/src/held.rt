//! What the lock of a round keeps: the boss, and what was granted and taken since the round opened.
ghost use Rattle.std.specs.Prelude.{◌≡◌, ◌+◌, ◌*◌, ◌<◌, ◌≤◌, ◌^◌, true, false, length, IfOk};
ghost use Rattle.bossx.specs.Books.{best_length, path_in, node_of};
ghost use Rattle.bossx.specs.Steps.{Step, IsCall, count_open};
ghost use Rattle.bossx.specs.Laws.{granted_with, taken_with, IsSameStart};
ghost use Rattle.tspround.specs.Alone.{IsSplitBy};
ghost use Rattle.tspround.specs.Rounds.{IsReached, IsOrder, MayComeIn};

use crate::opening::Opening;
use crate::order::Order;
use bossx::{Asked, Boss, Event, Reply, Reported, books_are_kept, events_are_charged};
use branchx::Path;
use std::alloc::{AllocError, Global};
use std::marker::{Model, PhantomData};
use std::sync::ledger::{Book, Ledger, Share};
use treebook::{tables_are_trees, tables_grow};
use worker::Worker;

/// The ledgers of grants and of takes: whoever raises one of them raises its own share by as much.
#[derive(Drop)]
pub(crate) struct Ledgers<L: Ledger, M: Ledger> {
    pub grants: Book<L>,
    pub takes: Book<M>,
}

/// Shares of both ledgers.
#[derive(Drop)]
pub(crate) struct Shares<L: Ledger, M: Ledger> {
    pub grants: Share<L>,
    pub takes: Share<M>,
}

/// How a search stands.
#[derive(Clone, Copy, Debug)]
pub(crate) struct Standing {
    pub best: u64,
    pub open: u32,
    pub settled: u32,
    pub least_key: Option<i64>,
}

/// A boss in a round, with the ledgers of its grants and takes. Whenever the lock is free its book is one to which events led from
/// the book with which the round opened, so many grants and takes away, and each node split since the boss's start is one that the
/// worker may split.
#[derive(Drop)]
pub(crate) struct Held<J: Opening, W: Worker, L: Ledger, M: Ledger> {
    boss: Boss,
    ledgers: Ledgers<L, M>,
    worker: PhantomData<W>,
    opening: PhantomData<J>,
}

impl<J: Opening, W: Worker, L: Ledger, M: Ledger> Model for Held<J, W, L, M> {
    ghost use Rattle.tspround.specs.Rounds.{Holding, IsReached};

    ghost Value = { Holding };

    ghost view = { λ h. record { book = h.boss; granted = h.ledgers.grants.total; taken = h.ledgers.takes.total } };

    ghost invariant = { λ h. IsReached W.splits J.book h.boss h.ledgers.grants.total h.ledgers.takes.total };
}

impl<J: Opening, W: Worker, L: Ledger, M: Ledger> Held<J, W, L, M> {
    /// The round opens.
    pub(crate) fn begin(boss: Boss, ledgers: Ledgers<L, M>) -> Held<J, W, L, M>
        requires opening { boss ≡ J.book }
        requires splits { IsSplitBy W.splits boss }
        requires granted { ledgers.grants.total ≡ 0 }
        requires taken { ledgers.takes.total ≡ 0 }
        ensures { result.book ≡ boss }
    {
        Held {
            boss,
            ledgers,
            worker: PhantomData,
            opening: PhantomData,
        }
    }

    /// One event, which the shares of whoever brings it count. A split comes only where the worker may split the lease's node.
    pub(crate) fn act(&mut self, event: Event, mine: &mut Shares<L, M>) -> Reply
        requires call { IsCall J.book.grunts event }
        requires may { MayComeIn W.splits self.old.book event }
        requires grants { 0 < mine.old.grants.parts }
        requires takes { 0 < mine.old.takes.parts }
        ensures step { Step self.old.book event result self.new.book }
        ensures granted { mine.new.grants.amount ≡ mine.old.grants.amount + granted_with result }
        ensures taken { mine.new.takes.amount ≡ mine.old.takes.amount + taken_with result }
        ensures grants { mine.new.grants.parts ≡ mine.old.grants.parts }
        ensures takes { mine.new.takes.parts ≡ mine.old.takes.parts }
        ensures few_grants { mine.new.grants.amount < 2 ^ 32 }
        ensures few_takes { mine.new.takes.amount < 2 ^ 32 }
        ensures start { IsSameStart J.book self.new.book }
    {
        books_are_kept();
        events_are_charged();
        tables_are_trees();
        tables_grow();
        let _book = self.boss.snapshot();
        let reply = self.boss.act(event);
        count(&mut self.ledgers, mine, reply);
        let _grants = self.boss.leases().grants();
        let _settled = self.boss.settled();
        reply
    }

    /// The node that was lent, with its path.
    pub(crate) fn order(
        &self,
        alloc: Global,
        lease: u32,
        node: u32,
        best: u64,
    ) -> Result<Order, AllocError>
        requires few { length J.book.start.nodes + 2 * J.book.budget ≤ 1048576 }
        requires node { node < length self.now.book.tree.nodes }
        requires best { best ≡ best_length self.now.book }
        ensures { IfOk result (IsOrder J.book) }
    {
        let _book = self.boss.snapshot();
        let path = self.boss.path(alloc, node)?;
        Ok(Order {
            lease,
            node,
            path,
            best,
        })
    }

    /// Whether a lease names a node with this path.
    pub(crate) fn is_at(&self, lease: u32, node: u32, path: &Path) -> bool
        ensures lease { result ≡ true → lease < length self.now.book.table.leases }
        ensures path { result ≡ true → path.now.conditions ≡ path_in self.now.book (node_of self.now.book lease) }
        ensures start { IsSameStart J.book self.now.book }
    {
        let leases = self.boss.leases();
        if lease >= leases.grants() || leases.node_of(lease) != node {
            return false;
        }
        let (_, tree) = self.boss.snapshot();
        tree.on_path(node, path)
    }

    /// How the search stands.
    pub(crate) fn standing(&self) -> Standing
        ensures best { result.best ≡ best_length self.now.book }
        ensures settled { result.settled ≡ self.now.book.settled }
        ensures open { result.open ≡ count_open self.now.book }
    {
        let (_, tree) = self.boss.snapshot();
        Standing {
            best: self.boss.best_length(),
            open: tree.open_nodes(),
            settled: self.boss.settled(),
            least_key: self.boss.least_key(),
        }
    }

    /// The boss, once nobody comes to the lock any more.
    pub(crate) fn into_boss(self, mut all: Shares<L, M>) -> (Boss, Shares<L, M>)
        requires grants { all.grants.parts ≡ L.parts }
        requires takes { all.takes.parts ≡ M.parts }
        ensures reached { IsReached W.splits J.book result.0 result.1.grants.amount result.1.takes.amount }
        ensures granted { result.1.grants.amount ≡ all.grants.amount }
        ensures taken { result.1.takes.amount ≡ all.takes.amount }
    {
        let Held {
            boss,
            mut ledgers,
            ..
        } = self;
        ledgers.grants.audit(&mut all.grants);
        ledgers.takes.audit(&mut all.takes);
        (boss, all)
    }
}

/// Counts what was granted or taken with a reply.
fn count<L: Ledger, M: Ledger>(ledgers: &mut Ledgers<L, M>, mine: &mut Shares<L, M>, reply: Reply)
    requires grants { 0 < mine.old.grants.parts }
    requires takes { 0 < mine.old.takes.parts }
    ensures granted { ledgers.new.grants.total ≡ ledgers.old.grants.total + granted_with reply }
    ensures taken { ledgers.new.takes.total ≡ ledgers.old.takes.total + taken_with reply }
    ensures my_grants { mine.new.grants.amount ≡ mine.old.grants.amount + granted_with reply }
    ensures my_takes { mine.new.takes.amount ≡ mine.old.takes.amount + taken_with reply }
    ensures grants { mine.new.grants.parts ≡ mine.old.grants.parts }
    ensures takes { mine.new.takes.parts ≡ mine.old.takes.parts }
    ensures few_grants { mine.new.grants.amount ≤ ledgers.new.grants.total }
    ensures few_takes { mine.new.takes.amount ≤ ledgers.new.takes.total }
{
    if is_granted(reply) {
        ledgers.grants.add(&mut mine.grants, 1);
    }
    if is_taken(reply) {
        ledgers.takes.add(&mut mine.takes, 1);
    }
    ledgers.grants.audit(&mut mine.grants);
    ledgers.takes.audit(&mut mine.takes);
}

/// Whether a lease was granted with a reply.
fn is_granted(reply: Reply) -> bool
    ensures yes { result ≡ true → granted_with reply ≡ 1 }
    ensures no { result ≡ false → granted_with reply ≡ 0 }
{
    matches!(reply, Reply::Asked(Asked::Leased { .. }))
}

/// Whether a report was taken with a reply.
fn is_taken(reply: Reply) -> bool
    ensures yes { result ≡ true → taken_with reply ≡ 1 }
    ensures no { result ≡ false → taken_with reply ≡ 0 }
{
    matches!(reply, Reply::Reported(Reported::Taken))
}
