//! Shrinking before flows (Padberg and Rinaldi 1990).
//!
//! Where the value between two groups is half of what crosses one of them, a set that parts the two is crossed by no less
//! once that group is taken to the other's side. So no least set is lost when the two are merged, but for the group alone,
//! and what crosses that is kept.
//!
//! A pass over the cities takes each group in turn, and merges it as long as another is tied to it. What crosses two other
//! groups and is between them stays as it was, so a group that was taken stays untied, and one pass is enough. A merge or a
//! test goes once through the entries and the cities: O(n (n + m)) steps for m entries.
ghost use Rattle.std.specs.Prelude.{◌<◌, ◌≤◌, ◌≡◌, ◌≢◌, ◌+◌, ℕ, length, slice_index, IfOk, MatchOption};
ghost use Rattle.std.specs.List.{sum};
ghost use Rattle.cyc.specs.Frac.{AreEntries};
ghost use Rattle.maxflow.specs.Shrinking.{IsFirst, AreTied, IsShrunk};
ghost use Rattle.maxflow.specs.Merging.{AreUntiedBelow, IsTie, IsLighterOf, IsMerging};

use crate::groups;
use cyc::{CitySet, Entry, Frac};
use std::alloc::{AllocError, Global};

/// Groups of cities, and the least that crosses a proper set that was a group on the way.
#[derive(Debug, Drop)]
pub struct Shrunk {
    /// Of each city the least city of its group.
    pub groups: Vec<u32>,
    /// In units.
    pub best: u64,
    /// A set that is crossed by `best`, and was a group at some time.
    pub set: CitySet,
}

/// Groups on the way, and the degree of each at its least city.
#[derive(Drop)]
pub struct Merging {
    pub shrunk: Shrunk,
    pub degrees: Vec<u64>,
}

/// Merges two groups as long as the value between them is at least half of what crosses the one and of what crosses the
/// other.
pub fn shrink(alloc: Global, x: &Frac) -> Result<Shrunk, AllocError>
    ensures { IfOk result (λ s. IsShrunk x.now s) }
{
    let n = x.n();
    let entries = x.entries();
    let mut merging = alone(alloc, n, entries)?;
    for a in 0..n {
        merging = settled(alloc, n, entries, merging, a)?;
    }
    Ok(merging.shrunk)
}

/// Each city in a group of its own.
fn alone(alloc: Global, n: u32, entries: &[Entry]) -> Result<Merging, AllocError>
    requires many { 3 ≤ n }
    requires few { n ≤ 2000 }
    requires entries { AreEntries n entries.now }
    ensures so_far { IfOk result (λ m. IsMerging n entries.now m) }
{
    let groups = groups::alone(alloc, n)?;
    let degrees = groups::degrees(alloc, n, entries)?;
    let city = lightest(&degrees);
    let set = groups::set_of(alloc, n, &groups, city)?;
    let best = degrees[city as usize];
    Ok(Merging {
        shrunk: Shrunk { groups, best, set },
        degrees,
    })
}

/// A city of the least degree.
fn lightest(degrees: &[u64]) -> u32
    requires some { 0 < length degrees.now }
    requires few { length degrees.now ≤ 2000 }
    ensures inside { result < length degrees.now }
    ensures least { (k : ℕ) → k < length degrees.now → slice_index degrees.now result ≤ slice_index degrees.now k }
{
    let mut best = 0;
    for city in 1..degrees.len() {
        if degrees[city] < degrees[best] {
            best = city;
        }
    }
    best as u32
}

/// Merges the group whose least city is `a`, where there is one, as long as another is tied to it.
fn settled(
    alloc: Global,
    n: u32,
    entries: &[Entry],
    merging: Merging,
    a: u32,
) -> Result<Merging, AllocError>
    requires many { 3 ≤ n }
    requires few { n ≤ 2000 }
    requires entries { AreEntries n entries.now }
    requires so_far { IsMerging n entries.now merging }
    requires inside { a < n }
    requires below { AreUntiedBelow n entries.now merging.shrunk.groups.items a n }
    ensures so_far { IfOk result (λ m. IsMerging n entries.now m) }
    ensures below { IfOk result (λ m. AreUntiedBelow n entries.now m.shrunk.groups.items (a + 1) n) }
{
    if groups::group_of(&merging.shrunk.groups, a) == a {
        return untied(alloc, n, entries, merging, a);
    }
    Ok(merging)
}

/// Merges the group whose least city is `a` as long as another is tied to it.
fn untied(
    alloc: Global,
    n: u32,
    entries: &[Entry],
    mut merging: Merging,
    a: u32,
) -> Result<Merging, AllocError>
    requires many { 3 ≤ n }
    requires few { n ≤ 2000 }
    requires entries { AreEntries n entries.now }
    requires so_far { IsMerging n entries.now merging }
    requires first { IsFirst n merging.shrunk.groups.items a }
    requires below { AreUntiedBelow n entries.now merging.shrunk.groups.items a n }
    ensures so_far { IfOk result (λ m. IsMerging n entries.now m) }
    ensures below { IfOk result (λ m. AreUntiedBelow n entries.now m.shrunk.groups.items (a + 1) n) }
{
    let mut at = a;
    while let Some((one, other)) = tie(alloc, n, entries, &merging, at)? {
        merging = merged(alloc, n, entries, merging, at, one, other)?;
        at = one;
    }
    Ok(merging)
}

/// Two tied groups, of which that of `at` is one.
fn tie(
    alloc: Global,
    n: u32,
    entries: &[Entry],
    merging: &Merging,
    at: u32,
) -> Result<Option<(u32, u32)>, AllocError>
    requires few { n ≤ 2000 }
    requires entries { AreEntries n entries.now }
    requires so_far { IsMerging n entries.now merging.now }
    requires first { IsFirst n merging.now.shrunk.groups.items at }
    ensures { IfOk result (λ o. MatchOption o
        ((b : ℕ) → IsFirst n merging.now.shrunk.groups.items b → b ≢ at → ¬ AreTied entries.now merging.now.shrunk.groups.items at b)
        (λ t. IsTie n entries.now merging.now.shrunk.groups.items at t.0 t.1)) }
{
    groups::tie(
        alloc,
        n,
        entries,
        &merging.shrunk.groups,
        &merging.degrees,
        at,
    )
}

/// The groups of `one` and `other` merged, of which that of `at` is one.
fn merged(
    alloc: Global,
    n: u32,
    entries: &[Entry],
    merging: Merging,
    at: u32,
    one: u32,
    other: u32,
) -> Result<Merging, AllocError>
    requires many { 3 ≤ n }
    requires few { n ≤ 2000 }
    requires entries { AreEntries n entries.now }
    requires so_far { IsMerging n entries.now merging }
    requires tied { IsTie n entries.now merging.shrunk.groups.items at one other }
    ensures now { IfOk result (λ m. IsMerging n entries.now m) }
    ensures first { IfOk result (λ m. IsFirst n m.shrunk.groups.items one) }
    ensures below { IfOk result (λ m. (city : ℕ) → AreUntiedBelow n entries.now merging.shrunk.groups.items city at
        → AreUntiedBelow n entries.now m.shrunk.groups.items city one) }
    ensures fewer { IfOk result (λ m. sum m.shrunk.groups.items < sum merging.shrunk.groups.items) }
{
    let Merging { shrunk, degrees } = merging;
    let groups = groups::merged(shrunk.groups, one, other);
    let weight = groups::weight_of(n, entries, &groups, one);
    let degrees = with_degree(degrees, one, weight);
    let (best, set) = lighter(alloc, n, &groups, one, weight, shrunk.best, shrunk.set)?;
    Ok(Merging {
        shrunk: Shrunk { groups, best, set },
        degrees,
    })
}

/// The degrees, with this one at `a`.
fn with_degree(mut degrees: Vec<u64>, a: u32, weight: u64) -> Vec<u64>
    requires inside { a < length degrees.items }
    ensures size { length result.items ≡ length degrees.items }
    ensures here { slice_index result.items a ≡ weight }
    ensures others { (k : ℕ) → k ≢ a → slice_index result.items k ≡ slice_index degrees.items k }
{
    degrees[a as usize] = weight;
    degrees
}

/// The lighter of a set and a group of this weight, where the group is not all cities.
fn lighter(
    alloc: Global,
    n: u32,
    groups: &[u32],
    a: u32,
    weight: u64,
    best: u64,
    set: CitySet,
) -> Result<(u64, CitySet), AllocError>
    requires many { 3 ≤ n }
    requires few { n ≤ 2000 }
    requires first { IsFirst n groups.now a }
    ensures { IfOk result (λ w. IsLighterOf n groups.now a weight best set w.0 w.1) }
{
    if weight < best {
        let group = groups::set_of(alloc, n, groups, a)?;
        if group.is_proper() {
            return Ok((weight, group));
        }
    }
    Ok((best, set))
}
