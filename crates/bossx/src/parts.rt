//! Parts of the book that events change.
ghost use Rattle.std.specs.Prelude.{◌≡◌, ◌≢◌, ℕ, ◌+◌, ◌<◌, ◌≤◌, ◌↔◌, true, false, length, replicate, pos, IfOk, IfSome, IsTrue, vec_len, vec_capacity};
ghost use Rattle.treebook.specs.Tables.{IsOpen};
ghost use Rattle.leasebook.specs.Leases.{is_held, is_held_fate, lease_at};
ghost use Rattle.tournament.specs.Places.{key_of};
ghost use Rattle.bossx.specs.Books as defs;
ghost use Rattle.bossx.specs.Books.{table_after, end_by, tree_after, keys_after};
ghost use Rattle.bossx.specs.Answers.{MaySettle, AreOpenBelow, key_after};

use crate::brought::Brought;
use branchx::Branch;
use cyc::Tour;
use leasebook::{LeaseFate, LeaseTable};
use pricer::Report;
use std::alloc::{AllocError, Global};
use tournament::Tournament;
use treebook::{State, Tree};
use tspinst::Instance;

/// Whether a number is that of a node that is open.
pub(crate) fn is_open(tree: &Tree, node: u32) -> bool
    ensures { IsTrue result ↔ IsOpen tree.now.nodes node }
{
    node < tree.nodes() && matches!(tree.state(node), State::Open)
}

/// Whether two instances have the same cities, distances and fixed pairs.
pub(crate) fn are_same(one: &Instance, other: &Instance) -> bool
    ensures { IsTrue result ↔ (one.now ≡ other.now) }
{
    *one == *other
}

/// What is said of a node.
pub(crate) fn content_of(brought: Brought) -> Report
    ensures { result ≡ defs.content_of brought }
{
    match brought {
        Brought::Plain(report) => report,
        Brought::Hinted(branch, _) => Report::Split(branch),
        Brought::Weighed(priced) => Report::Closed(priced.into_closing()),
    }
}

/// The key of a node's children, where the node has a key.
pub(crate) fn key_from(brought: &Brought, key: i64) -> i64
    ensures { result ≡ defs.key_from brought.now key }
{
    match brought {
        Brought::Hinted(_, hint) => *hint,
        Brought::Plain(_) | Brought::Weighed(_) => key,
    }
}

pub(crate) fn is_split(report: &Report) -> bool
    ensures { result ≡ defs.is_split report.now }
{
    match report {
        Report::Closed(_) => false,
        Report::Split(_) => true,
    }
}

/// What becomes of a lease that brought a report.
pub(crate) fn fate_by(report: &Report) -> LeaseFate
    ensures value { result ≡ defs.fate_by report.now }
    ensures ends { is_held_fate result ≡ false }
{
    match report {
        Report::Closed(_) => LeaseFate::Closed,
        Report::Split(_) => LeaseFate::Split,
    }
}

/// Ends the lease that holds a node, if one does: as it may where it is the lease that brought a report; any other is lost.
pub(crate) fn close_out(
    table: &mut LeaseTable,
    holder: Option<u32>,
    by: Option<u32>,
    fate: LeaseFate,
)
    requires held { IfSome holder (λ h. (h < length table.old.leases) × (is_held (lease_at table.old.leases h) ≡ true) × (length table.old.log < table.old.entry_room)) }
    requires ends { is_held_fate fate ≡ false }
    ensures { table.new ≡ table_after table.old holder by fate }
{
    if let Some(lease) = holder {
        table.end(lease, end_by(by, lease, fate));
    }
}

fn end_by(by: Option<u32>, holder: u32, fate: LeaseFate) -> LeaseFate
    requires { is_held_fate fate ≡ false }
    ensures value { result ≡ end_by by holder fate }
    ensures ends { is_held_fate result ≡ false }
{
    match by {
        Some(lease) if holder == lease => fate,
        _ => LeaseFate::Lost,
    }
}

/// Closes or splits an open node, as a report says. It is free no longer; its children are, with the key.
pub(crate) fn grow(
    tree: &mut Tree,
    keys: &mut Vec<i64>,
    free: &mut Tournament,
    node: u32,
    report: Report,
    key: i64,
)
    requires is_open { IsOpen tree.old.nodes node }
    requires fits { MaySettle tree.old node report }
    requires room { 2 ≤ tree.old.room }
    requires capacity { vec_len keys.old + 2 ≤ vec_capacity keys.old }
    requires size { length tree.old.nodes + 2 ≤ free.old.size }
    ensures tree { tree.new ≡ tree_after tree.old node report }
    ensures keys { keys.new.items ≡ keys_after keys.old.items key report }
    ensures capacity { vec_capacity keys.new ≡ vec_capacity keys.old }
    ensures size { free.new.size ≡ free.old.size }
    ensures free { (k : ℕ) → key_of free.new k ≡ key_after free.old tree.old.nodes node report key k }
{
    free.set(node, None);
    match report {
        Report::Closed(closing) => tree.close(node, closing),
        Report::Split(branch) => split(tree, keys, free, node, branch, key),
    }
}

fn split(
    tree: &mut Tree,
    keys: &mut Vec<i64>,
    free: &mut Tournament,
    node: u32,
    branch: Branch,
    key: i64,
)
    requires is_open { IsOpen tree.old.nodes node }
    requires fits { MaySettle tree.old node (Report.Split branch) }
    requires room { 2 ≤ tree.old.room }
    requires capacity { vec_len keys.old + 2 ≤ vec_capacity keys.old }
    requires size { length tree.old.nodes + 2 ≤ free.old.size }
    ensures tree { tree.new ≡ tree_after tree.old node (Report.Split branch) }
    ensures keys { keys.new.items ≡ keys_after keys.old.items key (Report.Split branch) }
    ensures capacity { vec_capacity keys.new ≡ vec_capacity keys.old }
    ensures size { free.new.size ≡ free.old.size }
    ensures one { key_of free.new (length tree.old.nodes) ≡ Some key }
    ensures two { key_of free.new (length tree.old.nodes + 1) ≡ Some key }
    ensures others { (k : ℕ) → k ≢ length tree.old.nodes → k ≢ length tree.old.nodes + 1 → key_of free.new k ≡ key_of free.old k }
{
    let child = tree.nodes();
    tree.split(node, branch);
    keys.push_reserved(key);
    keys.push_reserved(key);
    free.set(child, Some(key));
    free.set(child + 1, Some(key));
}

/// A key 0 for each node, with room for so many keys.
pub(crate) fn zero_keys(alloc: Global, nodes: u32, room: u32) -> Result<Vec<i64>, AllocError>
    requires { nodes ≤ room }
    ensures zeros { IfOk result (λ v. v.items ≡ replicate nodes (pos 0)) }
    ensures room { IfOk result (λ v. room ≤ vec_capacity v) }
{
    let mut keys = vec![in alloc; 0; nodes as usize]?;
    keys.reserve((room - nodes) as usize)?;
    Ok(keys)
}

/// The open nodes of a tree, with key 0, among so many numbers.
pub(crate) fn free_nodes(alloc: Global, tree: &Tree, size: u32) -> Result<Tournament, AllocError>
    requires inside { length tree.now.nodes ≤ size }
    requires few { size ≤ 1048577 }
    ensures size { IfOk result (λ t. t.size ≡ size) }
    ensures nodes { IfOk result (λ t. AreOpenBelow tree.now.nodes (length tree.now.nodes) t) }
{
    let mut free = Tournament::new(alloc, size)?;
    for node in 0..tree.nodes() {
        if is_open(tree, node) {
            free.set(node, Some(0));
        }
    }
    Ok(free)
}

/// A tour becomes equal to another of as many cities, without memory.
pub(crate) fn replace(tour: &mut Tour, other: &Tour)
    requires { length tour.old ≡ length other.now }
    ensures { tour.new ≡ other.now }
{
    tour.become_equal(other);
}
