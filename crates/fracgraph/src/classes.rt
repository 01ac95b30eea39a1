//! The cities of one label: each points to the next.
ghost use Rattle.std.specs.Prelude.{◌≡◌, ◌<◌, ◌≤◌, ℕ, length, slice_index, IfOk};
ghost use Rattle.tspdef.specs.Sets.{IsSet};
ghost use Rattle.fracgraph.specs.Labels.{AreNexts, IsClass};

use cyc::{CitySet, CitySetError};
use std::alloc::{AllocError, Global};

/// For each city the next one of its label, or n where it is the last. O(n).
pub fn nexts_of(alloc: Global, n: u32, labels: &[u32]) -> Result<Vec<u32>, AllocError>
    requires long { length labels.now ≡ n }
    requires below { (c : ℕ) → c < n → slice_index labels.now c < n }
    ensures { IfOk result (λ nexts. AreNexts n labels.now nexts.items) }
{
    let mut firsts = vec![in alloc; n; n as usize]?;
    let mut nexts = vec![in alloc; n; n as usize]?;
    for city in (0..n).rev() {
        let label = labels[city as usize] as usize;
        nexts[city as usize] = firsts[label];
        firsts[label] = city;
    }
    Ok(nexts)
}

/// The cities of the label that is this city, in rising order. A step for each of them.
pub fn class_of(
    alloc: Global,
    _labels: &[u32],
    nexts: &[u32],
    city: u32,
) -> Result<Vec<u32>, AllocError>
    requires nexts { AreNexts (length _labels.now) _labels.now nexts.now }
    requires least { (c : ℕ) → c < length _labels.now → slice_index _labels.now c ≤ c }
    requires own { slice_index _labels.now city ≡ city }
    requires below { city < length _labels.now }
    ensures { IfOk result (λ v. IsClass (length _labels.now) _labels.now city v.items) }
{
    let mut cities = Vec::new(alloc);
    let mut here = city;
    while (here as usize) < nexts.len() {
        cities.push(here)?;
        here = nexts[here as usize];
    }
    Ok(cities)
}

/// A rising list as a set.
pub fn set_of(alloc: Global, n: u32, cities: Vec<u32>) -> Result<CitySet, AllocError>
    requires many { 3 ≤ n }
    requires few { n ≤ 2000 }
    requires set { IsSet n cities.items }
    ensures { IfOk result (λ s. s ≡ record { n = n; cities = cities.items }) }
{
    match CitySet::new(alloc, n, cities) {
        Ok(set) => Ok(set),
        Err(CitySetError::NotRising) => unreachable!(),
        Err(CitySetError::NoMemory) => Err(AllocError),
    }
}
