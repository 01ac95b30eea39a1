//! A tree that grows by its nearest city (Prim 1957).
//!
//! The tree starts at city 1. Of each city the nearest city of the tree is known, so that the next pair is found by a look at each
//! city, and what is known is kept by another: O(n) a pair over the dense table, and no heap.
//!
//! No spanning tree is lighter, by exchange. Each spanning tree keeps as many of its pairs as cities are outside, which together
//! with the tree so far connect all cities at no more than its own weight. A new pair from the tree to city b replaces one of
//! them: the last pair on the way from b to the tree, which leaves the tree as the new one does, and so costs no less.

ghost use Rattle.std.specs.Prelude.{◌≡◌, ℕ, ◌+◌, ◌<◌, ◌≤◌, false, List, [], ◌∷◌, ◌++◌, length, IfOk, Bool, true, Some, ◌⊎◌, pos, ◌≤ℤ◌, slice_index, slice_index_or};
ghost use Rattle.onetree.specs.OneTrees.{AreDuals, reduced};
ghost use Rattle.onetree.specs.Growing.{marked, unmarked, with_city, IsNearest, AreNearest, IsGrowing, IsFront, IsLeastOut};

use crate::cost::cost;
use std::alloc::{AllocError, Global};
use tspinst::Instance;

/// Which cities are inside, and for each city the nearest of them and its cost.
#[derive(Debug, Drop)]
pub struct Frontier {
    inside: Vec<bool>,
    near: Vec<u32>,
    least: Vec<i128>,
}

impl Frontier {
    /// City 1 alone.
    pub fn start(alloc: Global, instance: &Instance, duals: &[i64]) -> Result<Frontier, AllocError>
        requires { AreDuals instance.now.n duals.now }
        ensures front { IfOk result (λ f. IsFront instance.now.n (reduced instance.now duals.now) f.inside.items f.near.items f.least.items) }
        ensures outside { IfOk result (λ f. unmarked f.inside.items + 2 ≡ instance.now.n) }
        ensures growing { IfOk result (λ f. IsGrowing instance.now.n (reduced instance.now duals.now) (marked f.inside.items) (unmarked f.inside.items) []) }
    {
        let n = instance.n() as usize;
        Ok(Frontier {
            inside: first_two(alloc, n)?,
            near: vec![in alloc; 1; n]?,
            least: from_first(alloc, instance, duals)?,
        })
    }

    /// Takes the pair from the tree to its nearest city outside.
    pub fn step(&mut self, instance: &Instance, duals: &[i64]) -> (u32, u32)
        requires duals { AreDuals instance.now.n duals.now }
        requires front { IsFront instance.now.n (reduced instance.now duals.now) self.old.inside.items self.old.near.items self.old.least.items }
        requires some { 0 < unmarked self.old.inside.items }
        ensures front { IsFront instance.now.n (reduced instance.now duals.now) self.new.inside.items self.new.near.items self.new.least.items }
        ensures outside { unmarked self.new.inside.items + 1 ≡ unmarked self.old.inside.items }
        ensures growing { (tree : List (ℕ × ℕ)) → IsGrowing instance.now.n (reduced instance.now duals.now) (marked self.old.inside.items) (unmarked self.old.inside.items) tree
            → IsGrowing instance.now.n (reduced instance.now duals.now) (marked self.new.inside.items) (unmarked self.new.inside.items) (tree ++ (result.0, result.1) ∷ []) }
    {
        let Some(city) = nearest(&self.inside, &self.least) else {
            unreachable!()
        };
        let from = self.near[city as usize];
        self.inside[city as usize] = true;
        relax(instance, duals, city, &mut self.near, &mut self.least);
        (from, city)
    }
}

/// Cities 0 and 1 inside.
fn first_two(alloc: Global, n: usize) -> Result<Vec<bool>, AllocError>
    requires { 3 ≤ n }
    ensures all { IfOk result (λ v. length v.items ≡ n) }
    ensures home { IfOk result (λ v. marked v.items 0 ≡ true) }
    ensures root { IfOk result (λ v. marked v.items 1 ≡ true) }
    ensures alone { IfOk result (λ v. (k : ℕ) → 0 < k → marked v.items k ≡ true → k ≡ 1) }
    ensures outside { IfOk result (λ v. unmarked v.items + 2 ≡ n) }
{
    let mut inside = vec![in alloc; false; n]?;
    inside[0] = true;
    inside[1] = true;
    Ok(inside)
}

/// The cost from city 1 to each city.
fn from_first(alloc: Global, instance: &Instance, duals: &[i64]) -> Result<Vec<i128>, AllocError>
    requires { AreDuals instance.now.n duals.now }
    ensures all { IfOk result (λ v. length v.items ≡ instance.now.n) }
    ensures same { IfOk result (λ v. (k : ℕ) → k < instance.now.n → slice_index_or v.items k (pos 0) ≡ reduced instance.now duals.now 1 k) }
{
    let n = instance.n();
    let mut least = vec![in alloc; 0i128; n as usize]?;
    for v in 0..n {
        least[v as usize] = cost(instance, duals, 1, v);
    }
    Ok(least)
}

/// The city outside whose cost is least.
fn nearest(inside: &[bool], least: &[i128]) -> Option<u32>
    requires few { length inside.now ≤ 2000 }
    requires same { length least.now ≡ length inside.now }
    ensures { IsLeastOut inside.now least.now (length inside.now) result }
{
    let mut best = None;
    for v in 0..inside.len() {
        if !inside[v] {
            best = Some(lesser(inside, least, best, v as u32));
        }
    }
    best
}

/// The better of the best so far and a city.
#[inline]
fn lesser(inside: &[bool], least: &[i128], best: Option<u32>, v: u32) -> u32
    requires best { IsLeastOut inside.now least.now v best }
    requires v { v < length least.now }
    requires outside { marked inside.now v ≡ false }
    ensures { IsLeastOut inside.now least.now (v + 1) (Some result) }
{
    match best {
        Some(city) if least[city as usize] <= least[v as usize] => city,
        _ => v,
    }
}

/// Keeps the nearest cities where a city comes inside.
fn relax(instance: &Instance, duals: &[i64], city: u32, near: &mut [u32], least: &mut [i128])
    requires duals { AreDuals instance.now.n duals.now }
    requires some { 0 < city }
    requires below { city < instance.now.n }
    requires near { length near.old ≡ instance.now.n }
    requires least { length least.old ≡ instance.now.n }
    ensures near { length near.new ≡ instance.now.n }
    ensures least { length least.new ≡ instance.now.n }
    ensures nearest { (s : ℕ → Bool) → AreNearest instance.now.n (reduced instance.now duals.now) s near.old least.old
        → AreNearest instance.now.n (reduced instance.now duals.now) (with_city s city) near.new least.new }
{
    for v in 1..instance.n() {
        let new = cost(instance, duals, city, v);
        closer(city, new, &mut near[v as usize], &mut least[v as usize]);
    }
}

/// Takes the new city and cost where the cost is no more. On a tie the newest city is taken, so that a tree of even distances is a path.
#[inline]
fn closer(city: u32, new: i128, near: &mut u32, least: &mut i128)
    ensures { ((least.old ≤ℤ new) × (near.new ≡ near.old) × (least.new ≡ least.old)) ⊎ ((new ≤ℤ least.old) × (near.new ≡ city) × (least.new ≡ new)) }
{
    if new <= *least {
        *near = city;
        *least = new;
    }
}
