//! The lease table with its log.
ghost use Rattle.std.specs.Prelude.{◌≡◌, ◌<◌, ◌≤◌, ◌^◌, ◌+◌, [], ◌∷◌, ◌++◌, None, true, false, cond, length, IfOk, count_by, vec_len, vec_capacity, slice_index_or, slice_set, ℕ};
ghost use Rattle.std.specs.List.{AllPairs};
ghost use Rattle.leasebook.specs.declared.lease.Entry.TheVariants.{Grant, End, Take};
ghost use Rattle.leasebook.specs.Leases.{is_held, is_held_fate, is_lost, is_lost_fate, lease_at, of_grunt, of_node, Apart};
ghost use Rattle.leasebook.specs.Log.{Table, AreCounts, entered, held, leases_of, leases_after};

use crate::lease::{Entry, Lease, LeaseFate};
use std::alloc::{AllocError, Global};
use std::marker::Model;

/// The leases by number, the log, and who holds what: a node has at most one held lease, and a grunt at most one. Each call but
/// `new` takes O(1) and no memory. Contracts see the leases, the log, the room of both, and how many grunts and nodes there may be.
#[derive(Drop)]
pub struct LeaseTable {
    leases: Vec<Lease>,
    log: Vec<Entry>,
    held: u32,
    lost: u32,
    /// The lease that holds each node.
    by_node: Vec<Option<u32>>,
    /// The lease that each grunt holds.
    by_grunt: Vec<Option<u32>>,
}

impl Model for LeaseTable {
    ghost use Rattle.leasebook.specs.Log.{Table};

    ghost Value = { Table };

    ghost use Rattle.leasebook.specs.TableInside.{table_of, IsWellKept};

    ghost view = { table_of };

    ghost invariant = { IsWellKept };
}

impl LeaseTable {
    /// An empty table with room for so many leases and entries, for grunts and nodes of lower numbers than these. O(grunts + nodes).
    pub fn new(
        alloc: Global,
        leases: u32,
        entries: u32,
        grunts: u32,
        nodes: u32,
    ) -> Result<LeaseTable, AllocError>
        ensures { IfOk result (λ t. t ≡ record { leases = []; log = []; lease_room = leases; entry_room = entries; grunts = grunts; nodes = nodes }) }
    {
        Ok(LeaseTable {
            leases: Vec::with_capacity(alloc, leases as usize)?,
            log: Vec::with_capacity(alloc, entries as usize)?,
            held: 0,
            lost: 0,
            by_node: none_held(alloc, nodes)?,
            by_grunt: none_held(alloc, grunts)?,
        })
    }

    /// How many leases were granted.
    pub fn grants(&self) -> u32
        ensures { result ≡ length self.now.leases }
    {
        self.leases.len() as u32
    }

    /// How many leases are held.
    pub fn held(&self) -> u32
        ensures { result ≡ held self.now }
    {
        self.held
    }

    /// How many leases were lost.
    pub fn lost(&self) -> u32
        ensures { result ≡ count_by is_lost self.now.leases }
    {
        self.lost
    }

    /// The lease of a number.
    pub fn lease(&self, lease: u32) -> Lease
        requires { lease < length self.now.leases }
        ensures { result ≡ lease_at self.now.leases lease }
    {
        lease_in(&self.leases, lease)
    }

    /// The node of a lease.
    pub fn node_of(&self, lease: u32) -> u32
        requires { lease < length self.now.leases }
        ensures node { result ≡ (lease_at self.now.leases lease).node }
        ensures inside { result < self.now.nodes }
    {
        lease_in(&self.leases, lease).node
    }

    /// The lease that a grunt holds. A grunt of a greater number than the table has room for holds none.
    pub fn of_grunt(&self, grunt: u32) -> Option<u32>
        ensures { result ≡ of_grunt self.now.leases grunt }
    {
        look(&self.by_grunt, grunt)
    }

    /// The lease that holds a node. A node of a greater number than the table has room for is held by none.
    pub fn of_node(&self, node: u32) -> Option<u32>
        ensures { result ≡ of_node self.now.leases node }
    {
        look(&self.by_node, node)
    }

    /// The leases by number: those that the log gives.
    pub fn leases(&self) -> &[Lease]
        ensures value { result.now ≡ self.now.leases }
        ensures apart { AllPairs Apart self.now.leases }
        ensures replayed { self.now.leases ≡ leases_of self.now.log }
    {
        &self.leases
    }

    /// The log. The numbers of leases that were granted, are held and were lost are counts in it.
    pub fn log(&self) -> &[Entry]
        ensures value { result.now ≡ self.now.log }
        ensures counts { AreCounts self.now.log (length self.now.leases) (held self.now) (count_by is_lost self.now.leases) }
    {
        &self.log
    }

    /// Lends a node to a grunt, and tells the lease's number.
    pub fn grant(&mut self, grunt: u32, node: u32) -> u32
        requires leases { length self.old.leases < self.old.lease_room }
        requires entries { length self.old.log < self.old.entry_room }
        requires grunt { grunt < self.old.grunts }
        requires node { node < self.old.nodes }
        requires grunt_is_free { of_grunt self.old.leases grunt ≡ None }
        requires node_is_free { of_node self.old.leases node ≡ None }
        requires few { length self.old.leases + 1 < 2 ^ 32 }
        ensures lease { result ≡ length self.old.leases }
        ensures table { self.new ≡ entered self.old (Grant grunt node) }
    {
        let lease = count(&self.leases);
        add(&mut self.leases, grunt, node);
        note(&mut self.log, Entry::Grant(grunt, node));
        mark(&mut self.by_grunt, grunt, Some(lease));
        mark(&mut self.by_node, node, Some(lease));
        self.held += 1;
        lease
    }

    /// Ends a held lease.
    pub fn end(&mut self, lease: u32, fate: LeaseFate)
        requires known { lease < length self.old.leases }
        requires is_held { is_held (lease_at self.old.leases lease) ≡ true }
        requires ends { is_held_fate fate ≡ false }
        requires entries { length self.old.log < self.old.entry_room }
        ensures { self.new ≡ entered self.old (End lease fate) }
    {
        let old = finish(&mut self.leases, lease, fate);
        note(&mut self.log, Entry::End(lease, fate));
        mark(&mut self.by_grunt, old.grunt, None);
        mark(&mut self.by_node, old.node, None);
        self.held -= 1;
        self.lost += losses(fate);
    }

    /// Notes that a node was closed, or split.
    pub fn take(&mut self, node: u32, split: bool)
        requires { length self.old.log < self.old.entry_room }
        ensures { self.new ≡ entered self.old (Take node split) }
    {
        note(&mut self.log, Entry::Take(node, split));
    }
}

/// An array of so many numbers with which no lease is held.
fn none_held(alloc: Global, count: u32) -> Result<Vec<Option<u32>>, AllocError>
    ensures long { IfOk result (λ v. length v.items ≡ count) }
    ensures none { IfOk result (λ v. (k : ℕ) → k < length v.items → slice_index_or v.items k None ≡ None) }
{
    Ok(vec![in alloc; None; count as usize]?)
}

/// The lease of a number.
fn lease_in(leases: &[Lease], lease: u32) -> Lease
    requires { lease < length leases.now }
    ensures { result ≡ lease_at leases.now lease }
{
    leases[lease as usize]
}

/// How many leases there are.
fn count(leases: &[Lease]) -> u32
    requires { length leases.now < 2 ^ 32 }
    ensures { result ≡ length leases.now }
{
    leases.len() as u32
}

/// The lease that is held with a number, if any is.
fn look(holders: &[Option<u32>], k: u32) -> Option<u32>
    ensures { result ≡ slice_index_or holders.now k None }
{
    match holders.get(k as usize) {
        Some(lease) => *lease,
        None => None,
    }
}

/// Appends a held lease within the capacity.
fn add(leases: &mut Vec<Lease>, grunt: u32, node: u32)
    requires { vec_len leases.old < vec_capacity leases.old }
    ensures items { leases.new.items ≡ leases_after leases.old.items (Grant grunt node) }
    ensures capacity { vec_capacity leases.new ≡ vec_capacity leases.old }
{
    leases.push_reserved(Lease {
        grunt,
        node,
        fate: LeaseFate::Held,
    });
}

/// Gives a lease another fate, and tells what the lease was.
fn finish(leases: &mut Vec<Lease>, lease: u32, fate: LeaseFate) -> Lease
    requires { lease < vec_len leases.old }
    ensures was { result ≡ lease_at leases.old.items lease }
    ensures items { leases.new.items ≡ leases_after leases.old.items (End lease fate) }
    ensures capacity { vec_capacity leases.new ≡ vec_capacity leases.old }
{
    let old = leases[lease as usize];
    leases[lease as usize] = Lease {
        grunt: old.grunt,
        node: old.node,
        fate,
    };
    old
}

/// Appends an entry within the capacity.
fn note(log: &mut Vec<Entry>, entry: Entry)
    requires { vec_len log.old < vec_capacity log.old }
    ensures items { log.new.items ≡ log.old.items ++ entry ∷ [] }
    ensures capacity { vec_capacity log.new ≡ vec_capacity log.old }
{
    log.push_reserved(entry);
}

/// Notes which lease is held with a number.
fn mark(holders: &mut Vec<Option<u32>>, k: u32, lease: Option<u32>)
    requires { k < vec_len holders.old }
    ensures { holders.new.items ≡ slice_set holders.old.items k lease }
{
    holders[k as usize] = lease;
}

/// How many leases are lost by the end of one.
fn losses(fate: LeaseFate) -> u32
    ensures value { result ≡ cond (is_lost_fate fate) 1 0 }
    ensures few { result ≤ 1 }
{
    match fate {
        LeaseFate::Lost => 1,
        LeaseFate::Held | LeaseFate::Closed | LeaseFate::Split => 0,
    }
}
