//! A label for each city: the least city that linked pairs join it to.
//!
//! Parts that linked pairs join are trees in which no city's parent is above it, so that the root of a tree is its least city
//! (Galler and Fischer 1964).
ghost use Rattle.std.specs.Prelude.{◌≡◌, ◌<◌, ◌≤◌, ℕ, length, slice_index, slice_index_or, IfOk};
ghost use Rattle.fracgraph.specs.Labels.{AreLabels, root_of, ParentsFall, merged};

use cyc::Frac;
use std::alloc::{AllocError, Global};

/// The labels where the pairs of a value above `low` and below `high` are linked.
pub fn of(alloc: Global, x: &Frac, low: u32, high: u32) -> Result<Vec<u32>, AllocError>
    ensures { IfOk result (λ labels. AreLabels x.now low high x.now.entries labels.items) }
{
    let mut parents = own_parents(alloc, x.n())?;
    for entry in x.entries() {
        if low < entry.x && entry.x < high {
            merge(&mut parents, entry.u, entry.v);
        }
    }
    roots(alloc, &parents)
}

/// Each city as its own parent.
fn own_parents(alloc: Global, n: u32) -> Result<Vec<u32>, AllocError>
    ensures long { IfOk result (λ parents. length parents.items ≡ n) }
    ensures own { IfOk result (λ parents. (c : ℕ) → c < n → slice_index parents.items c ≡ c) }
{
    let mut parents = Vec::with_capacity(alloc, n as usize)?;
    for city in 0..n {
        parents.push(city)?;
    }
    Ok(parents)
}

/// Makes one tree of those of two cities, under the lesser root, and puts each of the two right under the root that it had, so that the
/// ways up stay short (Tarjan 1975). O(depth of the two).
fn merge(parents: &mut [u32], u: u32, v: u32)
    requires fall { ParentsFall parents.old }
    requires u_below { u < length parents.old }
    requires v_below { v < length parents.old }
    ensures fall { ParentsFall parents.new }
    ensures roots { (c : ℕ) → c < length parents.old → root_of parents.new c ≡ merged (root_of parents.old u) (root_of parents.old v) (root_of parents.old c) }
{
    let a = root(parents, u);
    let b = root(parents, v);
    shorten(parents, u, a);
    shorten(parents, v, b);
    if a != b {
        parents[a.max(b) as usize] = a.min(b);
    }
}

/// Puts a city right under its root: no root changes.
#[tactic(auto, using(crate::proofs::RootLemmas::short_roots, crate::proofs::RootLemmas::short_fall, crate::proofs::RootLemmas::short_own))]
fn shorten(parents: &mut [u32], city: u32, root: u32)
    requires fall { ParentsFall parents.old }
    requires below { city < length parents.old }
    requires root { root ≡ root_of parents.old city }
    requires least { root ≤ city }
    requires own { slice_index parents.old root ≡ root }
    ensures fall { ParentsFall parents.new }
    ensures roots { (c : ℕ) → c < length parents.old → root_of parents.new c ≡ root_of parents.old c }
    ensures own { (c : ℕ) → slice_index parents.old c ≡ c → slice_index parents.new c ≡ c }
{
    parents[city as usize] = root;
}

/// The root of a city's tree.
fn root(parents: &[u32], city: u32) -> u32
    requires fall { ParentsFall parents.now }
    requires below { city < length parents.now }
    ensures value { result ≡ root_of parents.now city }
    ensures least { result ≤ city }
    ensures own { slice_index parents.now result ≡ result }
{
    let mut here = city;
    while parents[here as usize] != here {
        here = parents[here as usize];
    }
    here
}

/// The root of each city. A parent that is not the city itself stands before it. O(n).
fn roots(alloc: Global, parents: &[u32]) -> Result<Vec<u32>, AllocError>
    requires { ParentsFall parents.now }
    ensures long { IfOk result (λ labels. length labels.items ≡ length parents.now) }
    ensures each { IfOk result (λ labels. (c : ℕ) → c < length parents.now → slice_index labels.items c ≡ root_of parents.now c) }
{
    let mut labels = Vec::with_capacity(alloc, parents.len())?;
    for parent in parents {
        let label = label_of(&labels, *parent);
        labels.push(label)?;
    }
    Ok(labels)
}

/// The label of a parent; where there is none yet, the parent is the city itself.
fn label_of(labels: &[u32], parent: u32) -> u32
    ensures { result ≡ slice_index_or labels.now parent parent }
{
    labels.get(parent as usize).copied().unwrap_or(parent)
}
