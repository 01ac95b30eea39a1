//! The teeth of a blossom.
ghost use Rattle.std.specs.Prelude.{◌≡◌, ◌≢◌, ◌<◌, ◌≤◌, [], ◌∷◌, min, max, IfOk};
ghost use Rattle.std.specs.List.{AllByRecursion};
ghost use Rattle.tspdef.specs.Sets.{IsSet};
ghost use Rattle.tspdef.specs.Cuts.{IsTooth};
ghost use Rattle.cutform.specs.Cut.{cities_of_each};
ghost use Rattle.sepblos.specs.Blossoms.{is_tooth, teeth_of};

use cyc::{CitySet, CitySetError, Entry, Frac};
use std::alloc::{AllocError, Global};

/// From which value on a pair is near one length, in units.
pub const NEAR_ONE: u32 = 0x10_0000 - 0x400;

/// The pairs near one length with exactly one city in the handle, in the order of the entries.
pub fn teeth_of(alloc: Global, x: &Frac, handle: &CitySet) -> Result<Vec<CitySet>, AllocError>
    ensures value { IfOk result (λ teeth. cities_of_each teeth.items ≡ teeth_of x.now.entries handle.now.cities) }
    ensures teeth { IfOk result (λ teeth. AllByRecursion (IsTooth x.now.n handle.now.cities) (cities_of_each teeth.items)) }
{
    let n = x.n();
    let mut teeth = Vec::new(alloc);
    for entry in x.entries() {
        if is_tooth(handle, *entry) {
            teeth.push(pair_set(alloc, n, entry.u, entry.v)?)?;
        }
    }
    Ok(teeth)
}

/// Whether the entry is of a pair near one length with exactly one city in the handle.
fn is_tooth(handle: &CitySet, entry: Entry) -> bool
    ensures { result ≡ is_tooth handle.now.cities entry }
{
    entry.x >= NEAR_ONE && handle.contains(entry.u) != handle.contains(entry.v)
}

/// The set of two cities.
pub fn pair_set(alloc: Global, n: u32, u: u32, v: u32) -> Result<CitySet, AllocError>
    requires many { 3 ≤ n }
    requires few { n ≤ 2000 }
    requires u_below { u < n }
    requires v_below { v < n }
    requires apart { u ≢ v }
    ensures { IfOk result (λ s. s ≡ record { n = n; cities = min u v ∷ max u v ∷ [] }) }
{
    let mut cities = Vec::with_capacity(alloc, 2)?;
    cities.push(u.min(v))?;
    cities.push(u.max(v))?;
    let set = set_of(alloc, n, cities)?;
    Ok(set)
}

/// A rising list as a set.
pub fn set_of(alloc: Global, n: u32, cities: Vec<u32>) -> Result<CitySet, AllocError>
    requires many { 3 ≤ n }
    requires few { n ≤ 2000 }
    requires set { IsSet n cities.items }
    ensures { IfOk result (λ s. s ≡ record { n = n; cities = cities.items }) }
{
    match CitySet::new(alloc, n, cities) {
        Ok(set) => Ok(set),
        Err(CitySetError::NotRising) => unreachable!(),
        Err(CitySetError::NoMemory) => Err(AllocError),
    }
}
