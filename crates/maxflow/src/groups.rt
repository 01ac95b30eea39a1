//! Groups of cities, each named by its least city.
ghost use Rattle.std.specs.Prelude.{◌≡◌, ◌≢◌, ◌==◌, ◌<◌, ◌≤◌, ◌%◌, ◌^◌, ℕ, Bool, false, length, slice_index, IfOk, MatchOption};
ghost use Rattle.tspdef.specs.Sets.{has, IsSet};
ghost use Rattle.cyc.specs.Frac.{AreEntries};
ghost use Rattle.maxflow.specs.Crossings.{crossing, between};
ghost use Rattle.maxflow.specs.Shrinking.{in_group, IsFirst, AreTied, merged_to};
ghost use Rattle.maxflow.specs.Merging.{AreDegrees, IsTie};

use crate::sums;
use cyc::{CitySet, CitySetError, Entry};
use std::alloc::{AllocError, Global};

/// Each city alone.
pub fn alone(alloc: Global, n: u32) -> Result<Vec<u32>, AllocError>
    ensures size { IfOk result (λ v. length v.items ≡ n) }
    ensures each { IfOk result (λ v. (k : ℕ) → k < n → slice_index v.items k ≡ k) }
{
    let mut groups = Vec::new(alloc);
    for city in 0..n {
        groups.push(city)?;
    }
    Ok(groups)
}

/// The groups, with that of `b` merged into that of `a`.
pub fn merged(mut groups: Vec<u32>, a: u32, b: u32) -> Vec<u32>
    ensures size { length result.items ≡ length groups.items }
    ensures each { (k : ℕ) → k < length groups.items → slice_index result.items k ≡ merged_to a b (slice_index groups.items k) }
{
    for k in 0..groups.len() {
        if groups[k] == b {
            groups[k] = a;
        }
    }
    groups
}

/// The group of a city.
#[inline]
pub fn group_of(groups: &[u32], city: u32) -> u32
    ensures { result ≡ slice_index groups.now city }
{
    groups.get(city as usize).copied().unwrap_or(0)
}

/// The cities of a group.
pub fn set_of(alloc: Global, n: u32, groups: &[u32], a: u32) -> Result<CitySet, AllocError>
    requires many { 3 ≤ n }
    requires few { n ≤ 2000 }
    ensures cities { IfOk result (λ s. s.n ≡ n) }
    ensures set { IfOk result (λ s. IsSet n s.cities) }
    ensures members { IfOk result (λ s. (k : ℕ) → k < n → has s.cities k ≡ in_group groups.now a k) }
{
    let cities = cities_of(alloc, n, groups, a)?;
    match CitySet::new(alloc, n, cities) {
        Ok(set) => Ok(set),
        Err(CitySetError::NotRising) => unreachable!(),
        Err(CitySetError::NoMemory) => Err(AllocError),
    }
}

/// The same, as a list.
fn cities_of(alloc: Global, n: u32, groups: &[u32], a: u32) -> Result<Vec<u32>, AllocError>
    ensures set { IfOk result (λ v. IsSet n v.items) }
    ensures members { IfOk result (λ v. (k : ℕ) → k < n → has v.items k ≡ in_group groups.now a k) }
{
    let mut cities = Vec::new(alloc);
    for k in 0..n {
        if group_of(groups, k) == a {
            cities.push(k)?;
        }
    }
    Ok(cities)
}

/// What crosses a group.
pub fn weight_of(n: u32, entries: &[Entry], groups: &[u32], a: u32) -> u64
    requires few { n ≤ 2000 }
    requires entries { AreEntries n entries.now }
    ensures value { result ≡ crossing entries.now (in_group groups.now a) }
    ensures small { result < 2 ^ 53 }
{
    let _few = n;
    let mut weight: u64 = 0;
    for entry in entries {
        let inside = group_of(groups, entry.u) == a;
        if inside != (group_of(groups, entry.v) == a) {
            weight = weight.wrapping_add(u64::from(entry.x));
        }
    }
    weight
}

/// What is between a group and each of the others.
fn values_to(
    alloc: Global,
    n: u32,
    entries: &[Entry],
    groups: &[u32],
    a: u32,
) -> Result<Vec<u64>, AllocError>
    requires few { n ≤ 2000 }
    requires entries { AreEntries n entries.now }
    ensures size { IfOk result (λ v. length v.items ≡ n) }
    ensures values { IfOk result (λ v. (k : ℕ) → k < n → k ≢ a → slice_index v.items k ≡ between entries.now (in_group groups.now a) (in_group groups.now k)) }
    ensures small { IfOk result (λ v. (k : ℕ) → k < n → k ≢ a → slice_index v.items k < 2 ^ 53) }
{
    let values = sums_to(alloc, n, entries, groups, a)?;
    Ok(values)
}

/// The same, modulo 2^64.
fn sums_to(
    alloc: Global,
    n: u32,
    entries: &[Entry],
    groups: &[u32],
    a: u32,
) -> Result<Vec<u64>, AllocError>
    ensures size { IfOk result (λ v. length v.items ≡ n) }
    ensures sums { IfOk result (λ v. (k : ℕ) → k < n → slice_index v.items k ≡ between entries.now (in_group groups.now a) (in_group groups.now k) % 2 ^ 64) }
{
    let mut values = vec![in alloc; 0u64; n as usize]?;
    for entry in entries {
        sums::add_from(
            &mut values,
            a,
            group_of(groups, entry.u),
            group_of(groups, entry.v),
            entry.x,
        );
    }
    Ok(values)
}

/// The degree of each city.
pub fn degrees(alloc: Global, n: u32, entries: &[Entry]) -> Result<Vec<u64>, AllocError>
    requires few { n ≤ 2000 }
    requires entries { AreEntries n entries.now }
    ensures size { IfOk result (λ v. length v.items ≡ n) }
    ensures values { IfOk result (λ v. (k : ℕ) → k < n → slice_index v.items k ≡ crossing entries.now (λ j. j == k)) }
{
    let degrees = ends_of(alloc, n, entries)?;
    Ok(degrees)
}

/// The same, modulo 2^64.
fn ends_of(alloc: Global, n: u32, entries: &[Entry]) -> Result<Vec<u64>, AllocError>
    ensures size { IfOk result (λ v. length v.items ≡ n) }
    ensures sums { IfOk result (λ v. (k : ℕ) → k < n → slice_index v.items k ≡ crossing entries.now (λ j. j == k) % 2 ^ 64) }
{
    let mut degrees = vec![in alloc; 0u64; n as usize]?;
    for entry in entries {
        sums::add_ends(&mut degrees, *entry);
    }
    Ok(degrees)
}

/// Another group that is tied to that of `a`.
fn tied_to(
    alloc: Global,
    n: u32,
    entries: &[Entry],
    groups: &[u32],
    degrees: &[u64],
    a: u32,
) -> Result<Option<u32>, AllocError>
    requires few { n ≤ 2000 }
    requires entries { AreEntries n entries.now }
    requires first { IsFirst n groups.now a }
    requires size { length degrees.now ≡ n }
    requires degrees { AreDegrees n entries.now groups.now degrees.now }
    ensures { IfOk result (λ o. MatchOption o
        ((b : ℕ) → IsFirst n groups.now b → b ≢ a → ¬ AreTied entries.now groups.now a b)
        (λ b. IsFirst n groups.now b × ((b ≢ a) × AreTied entries.now groups.now a b))) }
{
    let weight = degrees[a as usize];
    let values = values_to(alloc, n, entries, groups, a)?;
    for b in 0..n {
        if b != a && group_of(groups, b) == b {
            let value = values[b as usize];
            if weight <= 2 * value && degrees[b as usize] <= 2 * value {
                return Ok(Some(b));
            }
        }
    }
    Ok(None)
}

/// The group of `a` and one that is tied to it, the lesser before the other.
pub fn tie(
    alloc: Global,
    n: u32,
    entries: &[Entry],
    groups: &[u32],
    degrees: &[u64],
    a: u32,
) -> Result<Option<(u32, u32)>, AllocError>
    requires few { n ≤ 2000 }
    requires entries { AreEntries n entries.now }
    requires first { IsFirst n groups.now a }
    requires size { length degrees.now ≡ n }
    requires degrees { AreDegrees n entries.now groups.now degrees.now }
    ensures { IfOk result (λ o. MatchOption o
        ((b : ℕ) → IsFirst n groups.now b → b ≢ a → ¬ AreTied entries.now groups.now a b)
        (λ t. IsTie n entries.now groups.now a t.0 t.1)) }
{
    match tied_to(alloc, n, entries, groups, degrees, a)? {
        Some(b) if b < a => Ok(Some((b, a))),
        Some(b) => Ok(Some((a, b))),
        None => Ok(None),
    }
}
