//! The lightest one-tree of some duals.

ghost use Rattle.std.specs.Prelude.{◌≡◌, ◌≢◌, ℕ, ◌+◌, ◌^◌, ◌<◌, ◌≤◌, IfOk, ◌≤ℤ◌};
ghost use Rattle.onetree.specs.OneTrees.{AreDuals, IsOneTree, IsLightest, reduced, weight};
ghost use Rattle.onetree.specs.Growing.{IsWithin, IsLightestSpan, IsNearHome};

use crate::cost::{cost, weigh};
use crate::frontier::Frontier;
use std::alloc::{AllocError, Global};
use tspinst::Instance;

/// A one-tree: its pairs, two of them at city 0, and its weight in units, each pair's distance less the duals of its two cities.
#[derive(Debug, Drop)]
pub struct OneTree {
    pub pairs: Vec<(u32, u32)>,
    pub weight: i128,
}

/// A one-tree for some duals: no one-tree is lighter (Held and Karp 1970). It takes O(n^2).
///
/// # Errors
///
/// Where memory ran out.
pub fn least_tree(alloc: Global, instance: &Instance, duals: &[i64]) -> Result<OneTree, AllocError>
    requires { AreDuals instance.now.n duals.now }
    ensures tree { IfOk result (λ t. IsOneTree instance.now.n t.pairs.items) }
    ensures weight { IfOk result (λ t. t.weight ≡ weight (reduced instance.now duals.now) t.pairs.items) }
    ensures least { IfOk result (λ t. IsLightest instance.now.n (reduced instance.now duals.now) t.weight) }
    ensures size { IfOk result (λ t. IsWithin (2 ^ 75) t.weight) }
{
    let mut pairs = spanning(alloc, instance, duals)?;
    let first = nearest_to_home(instance, duals, 0);
    let second = nearest_to_home(instance, duals, first);
    pairs.push((0, first))?;
    pairs.push((0, second))?;
    let weight = weigh(instance, duals, &pairs);
    Ok(OneTree { pairs, weight })
}

/// A lightest spanning tree of the cities but city 0.
fn spanning(
    alloc: Global,
    instance: &Instance,
    duals: &[i64],
) -> Result<Vec<(u32, u32)>, AllocError>
    requires { AreDuals instance.now.n duals.now }
    ensures { IfOk result (λ tree. IsLightestSpan instance.now.n (reduced instance.now duals.now) tree.items) }
{
    let mut frontier = Frontier::start(alloc, instance, duals)?;
    let mut tree = Vec::new(alloc);
    for inside in 2..instance.n() {
        tree.push(frontier.step(instance, duals))?;
    }
    Ok(tree)
}

/// The city whose pair with city 0 costs least, but for city 0 and the given one.
fn nearest_to_home(instance: &Instance, duals: &[i64], but: u32) -> u32
    requires { AreDuals instance.now.n duals.now }
    ensures some { 0 < result }
    ensures below { result < instance.now.n }
    ensures other { result ≢ but }
    ensures few { instance.now.n ≤ 2000 }
    ensures least { (v : ℕ) → 0 < v → v < instance.now.n → v ≢ but → reduced instance.now duals.now 0 result ≤ℤ reduced instance.now duals.now 0 v }
{
    let mut best = if but == 1 { 2 } else { 1 };
    for v in 1..instance.n() {
        best = nearer_to_home(instance, duals, but, best, v);
    }
    best
}

/// The better of the best so far and a city.
#[inline]
fn nearer_to_home(instance: &Instance, duals: &[i64], but: u32, best: u32, v: u32) -> u32
    requires duals { AreDuals instance.now.n duals.now }
    requires best { IsNearHome instance.now.n (reduced instance.now duals.now) but v best }
    requires some { 0 < v }
    requires v { v < instance.now.n }
    ensures { IsNearHome instance.now.n (reduced instance.now duals.now) but (v + 1) result }
{
    if v == but {
        return best;
    }
    if cost(instance, duals, 0, v) < cost(instance, duals, 0, best) {
        v
    } else {
        best
    }
}
