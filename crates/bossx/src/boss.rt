//! The boss.
ghost use Rattle.std.specs.Prelude.{◌≡◌, ℕ, ◌+◌, ◌-◌, ◌*◌, ◌<◌, ◌≤◌, ◌↔◌, [], true, None, pos, length, replicate, IfOk, IfSome, IfNone, IsTrue, MatchOption, vec_capacity};
ghost use Rattle.tspdef.specs.Instances.{IsTourOf, length_in};
ghost use Rattle.tspdef.specs.Trees.{IsSoundFor, Covers, settled};
ghost use Rattle.tspdef.specs.Closings as closings;
ghost use Rattle.tspdef.specs.Bounds as bounds;
ghost use Rattle.treebook.specs.Tables.{tree_of};
ghost use Rattle.leasebook.specs.Leases.{is_held, lease_at, of_grunt};
ghost use Rattle.bossx.specs.Books.{IsFree, best_length, level, path_in, node_of, content_of, key_at, is_split, lost, released, dropped, granted, taken, with_best};
ghost use Rattle.bossx.specs.Judging.{IsUndecided, IsNewSet, BranchFits, IsBranchMisfit, BroughtFits, IsMisfitOf, IsAtHome, IsReady, MayBeTaken, IsJudged};
ghost use Rattle.bossx.specs.Steps.{Step, IsNext, IsInFront, IsFirstFree};
ghost use Rattle.bossx.specs.Answers.{IsAnswer, IsBoundOf, AreOpenBelow, reported_after, own_after};
ghost use Rattle.bossx.specs.Kept.{IsBook, IsStart};

use crate::brought::Brought;
use crate::events::{Event, Reply};
use crate::parts::{
    are_same, close_out, content_of, fate_by, free_nodes, grow, is_open, is_split, key_from,
    replace, zero_keys,
};
use crate::replies::{Asked, Expiry, Front, Offered, Reported};
use crate::tours::first_off;
use branchx::{Branch, Path};
use cyc::{CitySet, Tour};
use leasebook::{LeaseFate, LeaseTable};
use pricer::{Closing, Fit, Priced, Report, needed};
use std::alloc::{AllocError, Global};
use std::marker::Model;
use std::snapshot::Snapshot;
use tournament::Tournament;
use treebook::Tree;
use tspdef::bound_is_below;
use tspinst::Instance;

/// At so many lost leases no more are granted.
const MOST_LOST: u32 = 256;

/// The book of a search, with all its room taken. Contracts see the book: the instance, the tree, the nodes' keys, the lease table
/// with its log, the best tour, how many nodes are settled since the start, the budget, the number of grunts, the gap, and what the
/// start was.
#[derive(Drop)]
pub struct Boss {
    instance: Instance,
    tree: Tree,
    keys: Vec<i64>,
    /// The free nodes, each with its key: open nodes that no lease holds.
    free: Tournament,
    table: LeaseTable,
    best: Tour,
    /// The best tour's length.
    length: u64,
    settled: u32,
    budget: u32,
    grunts: u32,
    gap: u64,
    opening: Snapshot<Tree>,
    first_nodes: u32,
    first_settled: u32,
    first_length: u64,
}

impl Model for Boss {
    ghost use Rattle.bossx.specs.Books.{Book};

    ghost Value = { Book };

    ghost use Rattle.bossx.specs.BossInside.{book_of, IsWellKept};

    ghost view = { book_of };

    ghost invariant = { IsWellKept };
}

impl Boss {
    // ---- the start

    /// A boss over a tree and a tour of an instance, which is copied. Of the tree's open nodes each is free, with key 0. It takes
    /// room for all that may come: two nodes for each node that the budget lets settle, and the leases and log entries of so many.
    pub fn start(
        alloc: Global,
        instance: &Instance,
        mut tree: Tree,
        tour: Tour,
        budget: u32,
        grunts: u32,
        gap: u64,
    ) -> Result<Boss, AllocError>
        requires cities { tree.n ≡ instance.now.n }
        requires fixed { tree.fixed ≡ instance.now.fixed }
        requires tour { IsTourOf instance.now tour }
        requires sound { IsSoundFor instance.now (length_in instance.now tour - gap) (tree_of tree.nodes) }
        requires few { length tree.nodes + 2 * budget ≤ 1048576 }
        requires some_grunts { 1 ≤ grunts }
        requires few_grunts { grunts ≤ 64 }
        ensures start { IfOk result (IsStart instance.now tree tour budget grunts gap) }
        ensures book { IfOk result IsBook }
    {
        let _few = tree.nodes();
        tree.reserve(alloc, 2 * budget + 1)?;
        let numbers = tree.nodes() + 2 * budget + 1;
        let keys = zero_keys(alloc, tree.nodes(), numbers)?;
        let free = free_nodes(alloc, &tree, numbers)?;
        let table = LeaseTable::new(alloc, budget + 256, 3 * budget + 512, grunts + 1, numbers)?;
        let own = instance.copy(alloc)?;
        Ok(Boss::begin(own, tree, keys, free, table, tour, budget, grunts, gap))
    }

    /// A boss whose room is taken.
    fn begin(
        instance: Instance,
        tree: Tree,
        keys: Vec<i64>,
        free: Tournament,
        table: LeaseTable,
        best: Tour,
        budget: u32,
        grunts: u32,
        gap: u64,
    ) -> Boss
        requires cities { tree.n ≡ instance.n }
        requires fixed { tree.fixed ≡ instance.fixed }
        requires tour { IsTourOf instance best }
        requires sound { IsSoundFor instance (length_in instance best - gap) (tree_of tree.nodes) }
        requires few { length tree.nodes + 2 * budget ≤ 1048576 }
        requires room { 2 * budget ≤ tree.room }
        requires keys { keys.items ≡ replicate (length tree.nodes) (pos 0) }
        requires key_room { length tree.nodes + 2 * budget ≤ vec_capacity keys }
        requires free { AreOpenBelow tree.nodes (length tree.nodes) free }
        requires places { length tree.nodes + 2 * budget ≤ free.size }
        requires empty { (table.leases ≡ []) × (table.log ≡ []) }
        requires leases { budget + 256 ≤ table.lease_room }
        requires entries { 3 * budget + 512 ≤ table.entry_room }
        requires names { length tree.nodes + 2 * budget ≤ table.nodes }
        requires grunts { grunts < table.grunts }
        ensures start { IsStart instance tree best budget grunts gap result }
        ensures book { IsBook result }
    {
        let opening = Snapshot::of(&tree);
        let first_nodes = tree.nodes();
        let first_settled = tree.settled();
        let _table = tree.n();
        let _many = instance.n();
        let first_length = instance.length(&best);
        Boss {
            instance,
            tree,
            keys,
            free,
            table,
            best,
            length: first_length,
            settled: 0,
            budget,
            grunts,
            gap,
            opening,
            first_nodes,
            first_settled,
            first_length,
        }
    }

    // ---- events

    /// A grunt, from 1 on, asks for a node. It has lost the lease that it held. Of the free nodes the one with the least key is
    /// lent, and of equal keys that with the least number. O(log nodes).
    pub fn ask(&mut self, grunt: u32) -> Asked
        requires from { 1 ≤ grunt }
        requires to { grunt ≤ self.old.grunts }
        ensures { Step self.old (Event.Ask grunt) (Reply.Asked result) self.new }
    {
        self.let_go(grunt);
        self.answer(grunt)
    }

    /// A report on the node of a lease, whoever sends it.
    pub fn report(&mut self, lease: u32, report: Report) -> Reported
        ensures { Step self.old (Event.Report lease (Brought.Plain report)) (Reply.Reported result) self.new }
    {
        self.bring(lease, Brought::Plain(report))
    }

    /// A report of a split, with the key that both children get. Keys are trusted with nothing but the order of lending.
    pub fn report_hinted(&mut self, lease: u32, branch: Branch, hint: i64) -> Reported
        ensures { Step self.old (Event.Report lease (Brought.Hinted branch hint)) (Reply.Reported result) self.new }
    {
        self.bring(lease, Brought::Hinted(branch, hint))
    }

    /// A report of a closing whose bound is known. It is compared and not summed; that it was priced for this instance, and on the
    /// node's path, is looked at.
    pub fn report_priced(&mut self, lease: u32, priced: Priced) -> Reported
        ensures { Step self.old (Event.Report lease (Brought.Weighed priced)) (Reply.Reported result) self.new }
    {
        self.bring(lease, Brought::Weighed(priced))
    }

    /// A report of the boss itself on a node, without a lease. A lease that holds the node is lost where the report is taken. A
    /// number of no node is that of none that is open.
    pub fn own(&mut self, node: u32, report: Report) -> Reported
        ensures { Step self.old (Event.Own node report) (Reply.Reported result) self.new }
    {
        let brought = Brought::Plain(report);
        let reply = self.judge(node, &brought);
        self.conclude_own(node, brought, reply);
        reply
    }

    /// A grunt is gone: the lease that it held is lost, and is told.
    pub fn gone(&mut self, grunt: u32) -> Option<u32>
        ensures { Step self.old (Event.Gone grunt) (Reply.Went result) self.new }
    {
        self.let_go(grunt)
    }

    /// The time of a lease is over: it is lost, if it is held.
    pub fn expire(&mut self, lease: u32) -> Expiry
        ensures { Step self.old (Event.Expire lease) (Reply.Expired result) self.new }
    {
        if lease >= self.table.grants() {
            return Expiry::Unknown;
        }
        if !self.table.lease(lease).is_held() {
            return Expiry::NotHeld;
        }
        self.lose(lease);
        Expiry::Expired
    }

    /// A tour is offered: it is the best one from now on, where it is shorter.
    pub fn offer(&mut self, tour: &Tour) -> Offered
        ensures { Step self.old (Event.Offer tour.now) (Reply.Offered result) self.new }
    {
        if tour.n() != self.instance.n() {
            return Offered::OtherSize;
        }
        if let Some(pair) = first_off(tour.cities(), self.instance.fixed()) {
            return Offered::OffFixed(pair.0, pair.1);
        }
        let length = self.instance.length(tour);
        if length >= self.length {
            return Offered::NotShorter(self.length);
        }
        self.keep(tour, length);
        Offered::Better
    }

    // ---- readers

    /// The node that a boss without grunts works on next.
    pub fn front(&self) -> Front
        ensures { IsInFront self.now result }
    {
        if self.tree.open_nodes() == 0 {
            return Front::Done;
        }
        if self.settled == self.budget {
            return Front::Spent;
        }
        match self.tree.least_open() {
            Some(node) => Front::Node(node),
            None => Front::Done,
        }
    }

    /// The best tour and the tree. The tree is sound for the level, and covers each tour below it.
    pub fn snapshot(&self) -> (&Tour, &Tree)
        ensures tour { result.0.now ≡ self.now.best }
        ensures tree { result.1.now ≡ self.now.tree }
        ensures book { IsBook self.now }
        ensures covers { Covers self.now.instance (tree_of self.now.tree.nodes) (level self.now) }
    {
        let _many = self.instance.n();
        (&self.best, &self.tree)
    }

    /// The path of a node.
    pub fn path(&self, alloc: Global, node: u32) -> Result<Path, AllocError>
        requires { node < length self.now.tree.nodes }
        ensures { IfOk result (λ p. p ≡ record { n = self.now.instance.n; conditions = path_in self.now node }) }
    {
        self.tree.path_of(alloc, node)
    }

    /// The lease table.
    pub fn leases(&self) -> &LeaseTable
        ensures table { result.now ≡ self.now.table }
        ensures book { IsBook self.now }
    {
        &self.table
    }

    /// The instance.
    pub fn instance(&self) -> &Instance
        ensures { result.now ≡ self.now.instance }
    {
        &self.instance
    }

    /// The best tour's length.
    pub fn best_length(&self) -> u64
        ensures { result ≡ best_length self.now }
    {
        self.length
    }

    /// How many nodes were closed or split since the start.
    pub fn settled(&self) -> u32
        ensures value { result ≡ self.now.settled }
        ensures within { self.now.settled ≤ self.now.budget }
    {
        self.settled
    }

    /// The least key of a free node, if there is one: the key of the node that is lent next. O(1).
    pub fn least_key(&self) -> Option<i64>
        ensures some { IfSome result (λ key. (node : ℕ) × IsFirstFree self.now node × (key ≡ key_at self.now.keys node)) }
        ensures none { IfNone result ((node : ℕ) → ¬ IsFree self.now.tree.nodes self.now.table.leases node) }
    {
        match self.free.least() {
            Some(node) => Some(self.key(node)),
            None => None,
        }
    }

    /// How many nodes may be closed or split since the start.
    pub fn budget(&self) -> u32
        ensures { result ≡ self.now.budget }
    {
        self.budget
    }

    /// How many grunts there are.
    pub fn grunts(&self) -> u32
        ensures { result ≡ self.now.grunts }
    {
        self.grunts
    }

    /// By how much a tour may miss the shortest one.
    pub fn gap(&self) -> u64
        ensures { result ≡ self.now.gap }
    {
        self.gap
    }

    /// How many nodes there were at the start.
    pub fn first_nodes(&self) -> u32
        ensures { result ≡ length self.now.start.nodes }
    {
        self.first_nodes
    }

    /// How many nodes were closed or split at the start.
    pub fn first_settled(&self) -> u32
        ensures { result ≡ settled (tree_of self.now.start.nodes) }
    {
        self.first_settled
    }

    /// How long the best tour was at the start.
    pub fn first_length(&self) -> u64
        ensures value { result ≡ self.now.start.length }
        ensures no_longer { best_length self.now ≤ result }
    {
        self.first_length
    }

    // ---- parts of events

    /// The grunt loses the lease that it holds.
    fn let_go(&mut self, grunt: u32) -> Option<u32>
        ensures lease { result ≡ of_grunt self.old.table.leases grunt }
        ensures after { self.new ≡ released self.old grunt }
        ensures idle { of_grunt self.new.table.leases grunt ≡ None }
    {
        let lease = self.table.of_grunt(grunt)?;
        self.lose(lease);
        Some(lease)
    }

    /// A lease that is held is lost, and its node free again.
    fn lose(&mut self, lease: u32)
        requires known { lease < length self.old.table.leases }
        requires held { is_held (lease_at self.old.table.leases lease) ≡ true }
        ensures { self.new ≡ lost self.old lease }
    {
        let node = self.table.node_of(lease);
        let key = self.key(node);
        self.table.end(lease, LeaseFate::Lost);
        self.free.set(node, Some(key));
    }

    /// A lease is lost, if it is held.
    fn drop_lease(&mut self, lease: u32)
        requires { lease < length self.old.table.leases }
        ensures { self.new ≡ dropped self.old lease }
    {
        if self.table.lease(lease).is_held() {
            self.lose(lease);
        }
    }

    /// The key of a node.
    fn key(&self, node: u32) -> i64
        requires { node < length self.now.tree.nodes }
        ensures { result ≡ key_at self.now.keys node }
    {
        self.keys[node as usize]
    }

    /// The answer to a grunt that holds no lease.
    fn answer(&mut self, grunt: u32) -> Asked
        requires to { grunt ≤ self.old.grunts }
        requires idle { of_grunt self.old.table.leases grunt ≡ None }
        ensures { IsAnswer self.old grunt result self.new }
    {
        if self.tree.open_nodes() == 0 {
            return Asked::Done;
        }
        if self.settled == self.budget {
            return Asked::Spent;
        }
        if self.table.lost() >= MOST_LOST {
            return Asked::Home;
        }
        if self.table.held() >= self.budget - self.settled {
            return Asked::NotYet;
        }
        let Some(node) = self.free.least() else {
            return Asked::NotYet;
        };
        let best = self.length;
        let lease = self.lend(grunt, node);
        Asked::Leased { lease, node, best }
    }

    /// Lends a free node.
    fn lend(&mut self, grunt: u32, node: u32) -> u32
        requires to { grunt ≤ self.old.grunts }
        requires idle { of_grunt self.old.table.leases grunt ≡ None }
        requires next { IsNext self.old node }
        ensures lease { result ≡ length self.old.table.leases }
        ensures after { self.new ≡ granted self.old grunt node }
    {
        let lease = self.table.grant(grunt, node);
        self.free.set(node, None);
        lease
    }

    /// What is brought for the node of a lease.
    pub(crate) fn bring(&mut self, lease: u32, brought: Brought) -> Reported
        ensures { Step self.old (Event.Report lease brought) (Reply.Reported result) self.new }
    {
        if lease >= self.table.grants() {
            return Reported::Unknown;
        }
        let node = self.table.node_of(lease);
        let reply = self.judge(node, &brought);
        self.conclude(lease, brought, reply);
        reply
    }

    /// Does what the answer to a report says.
    fn conclude(&mut self, lease: u32, brought: Brought, reply: Reported)
        requires known { lease < length self.old.table.leases }
        requires judged { IsJudged self.old (node_of self.old lease) brought reply }
        ensures { self.new ≡ reported_after self.old lease brought reply }
    {
        match reply {
            Reported::Taken => {
                let node = self.table.node_of(lease);
                self.settle(Some(lease), node, brought);
            }
            Reported::Unknown | Reported::Stale => (),
            Reported::Spent | Reported::Misfit(_) | Reported::Weak { .. } => self.drop_lease(lease),
        }
    }

    /// Does what the answer to a report of the boss itself says.
    fn conclude_own(&mut self, node: u32, brought: Brought, reply: Reported)
        requires { IsJudged self.old node brought reply }
        ensures { self.new ≡ own_after self.old node brought reply }
    {
        match reply {
            Reported::Taken => self.settle(None, node, brought),
            Reported::Unknown
            | Reported::Stale
            | Reported::Spent
            | Reported::Misfit(_)
            | Reported::Weak { .. } => (),
        }
    }

    /// What is answered to what is brought for a node. It changes nothing.
    fn judge(&self, node: u32, brought: &Brought) -> Reported
        ensures { IsJudged self.now node brought.now result }
    {
        if !is_open(&self.tree, node) {
            return Reported::Stale;
        }
        if self.settled == self.budget {
            return Reported::Spent;
        }
        match self.misfit(node, brought) {
            Some(k) => Reported::Misfit(k),
            None => self.weigh(node, brought),
        }
    }

    /// The least that is wrong with what is brought for a node, if anything is.
    fn misfit(&self, node: u32, brought: &Brought) -> Option<u32>
        requires { node < length self.now.tree.nodes }
        ensures { MatchOption result (BroughtFits self.now node brought.now) (IsMisfitOf self.now node brought.now) }
    {
        match brought {
            Brought::Plain(Report::Closed(closing)) => self.closing_misfit(node, closing),
            Brought::Plain(Report::Split(branch)) | Brought::Hinted(branch, _) => {
                self.branch_misfit(node, branch)
            }
            Brought::Weighed(priced) => {
                if self.is_at_home(node, priced) {
                    None
                } else {
                    Some(7)
                }
            }
        }
    }

    fn closing_misfit(&self, node: u32, closing: &Closing) -> Option<u32>
        requires { node < length self.now.tree.nodes }
        ensures { MatchOption result (closings.Fits self.now.instance.n (path_in self.now node) closing.now) (closings.IsMisfit self.now.instance.n (path_in self.now node) closing.now) }
    {
        match self.tree.fits_at(&self.instance, node, closing) {
            Fit::Fits => None,
            Fit::Misfit(k) => Some(k),
        }
    }

    fn branch_misfit(&self, node: u32, branch: &Branch) -> Option<u32>
        requires { node < length self.now.tree.nodes }
        ensures { MatchOption result (BranchFits self.now.instance.n (path_in self.now node) branch.now) (IsBranchMisfit self.now.instance.n (path_in self.now node) branch.now) }
    {
        match branch {
            Branch::Edge(u, v) => {
                if self.is_undecided(node, *u, *v) {
                    None
                } else {
                    Some(5)
                }
            }
            Branch::Clique(set) => {
                if self.is_new(node, set) {
                    None
                } else {
                    Some(6)
                }
            }
        }
    }

    /// Whether a closing was priced for this instance and on the node's path.
    fn is_at_home(&self, node: u32, priced: &Priced) -> bool
        requires { node < length self.now.tree.nodes }
        ensures home { IsTrue result ↔ IsAtHome self.now node priced.now }
        ensures fits { IsTrue result → closings.Fits self.now.instance.n (path_in self.now node) priced.now.closing }
    {
        let path = priced.path();
        if are_same(priced.instance(), &self.instance) {
            return self.tree.on_path(node, path);
        }
        false
    }

    fn is_undecided(&self, node: u32, u: u32, v: u32) -> bool
        requires { node < length self.now.tree.nodes }
        ensures { IsTrue result ↔ IsUndecided self.now.instance.n (path_in self.now node) u v }
    {
        u < v && v < self.instance.n() && !self.tree.decided_at(node, u, v)
    }

    fn is_new(&self, node: u32, set: &CitySet) -> bool
        requires { node < length self.now.tree.nodes }
        ensures { IsTrue result ↔ IsNewSet self.now.instance.n (path_in self.now node) set.now }
    {
        if set.n() != self.instance.n() {
            return false;
        }
        if !set.is_proper() {
            return false;
        }
        self.tree.new_at(node, set)
    }

    /// Weak, or Taken: whether a closing that fits has a bound that is greater than what is needed.
    fn weigh(&self, node: u32, brought: &Brought) -> Reported
        requires ready { IsReady self.now node }
        requires fits { BroughtFits self.now node brought.now }
        ensures { IsJudged self.now node brought.now result }
    {
        let Some(bound) = self.bound(node, brought) else {
            return Reported::Taken;
        };
        let needed = needed(self.length.saturating_sub(self.gap));
        if bound <= needed {
            Reported::Weak { bound, needed }
        } else {
            Reported::Taken
        }
    }

    /// The bound of what is brought, if it is a closing.
    fn bound(&self, node: u32, brought: &Brought) -> Option<i128>
        requires node { node < length self.now.tree.nodes }
        requires fits { BroughtFits self.now node brought.now }
        ensures { MatchOption result (is_split (content_of brought.now) ≡ true) (λ y. IsBoundOf self.now node (content_of brought.now) y) }
    {
        match brought {
            Brought::Plain(Report::Closed(closing)) => Some(self.closing_bound(node, closing)),
            Brought::Weighed(priced) => Some(priced.bound()),
            Brought::Plain(Report::Split(_)) | Brought::Hinted(_, _) => None,
        }
    }

    fn closing_bound(&self, node: u32, closing: &Closing) -> i128
        requires node { node < length self.now.tree.nodes }
        requires fits { closings.Fits self.now.instance.n (path_in self.now node) closing.now }
        ensures { result ≡ bounds.bound self.now.instance (path_in self.now node) closing.now }
    {
        bound_is_below();
        self.tree.bound_at(&self.instance, node, closing)
    }

    /// Closes or splits a node by what was brought, and ends the lease that holds it.
    fn settle(&mut self, by: Option<u32>, node: u32, brought: Brought)
        requires { MayBeTaken self.old node brought }
        ensures { self.new ≡ taken self.old by node brought }
    {
        let holder = self.table.of_node(node);
        let key = key_from(&brought, self.key(node));
        let report = content_of(brought);
        self.table.take(node, is_split(&report));
        close_out(&mut self.table, holder, by, fate_by(&report));
        grow(
            &mut self.tree,
            &mut self.keys,
            &mut self.free,
            node,
            report,
            key,
        );
        self.settled += 1;
    }

    /// A tour that is shorter is the best one.
    fn keep(&mut self, tour: &Tour, length: u64)
        requires tour { IsTourOf self.old.instance tour.now }
        requires long { length ≡ length_in self.old.instance tour.now }
        requires shorter { length < best_length self.old }
        ensures { self.new ≡ with_best self.old tour.now }
    {
        replace(&mut self.best, tour);
        self.length = length;
    }
}
