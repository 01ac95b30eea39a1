//! Groups of cities, numbered from 0 on, and sets of groups turned into sets of cities.
ghost use Rattle.std.specs.Prelude.{◌≡◌, ◌<◌, ◌≤◌, ℕ, length, slice_index, IfOk};
ghost use Rattle.tspdef.specs.Sets.{has, IsSet};
ghost use Rattle.maxflow.specs.Shrinking.{AreGroups};
ghost use Rattle.sepsub.specs.Grouping.{IsNumbered, IsWithCity, IsMapped};

use cyc::{CitySet, CitySetError};
use std::alloc::{AllocError, Global};

/// The number of each city's group, and the least city of each group by its number.
#[derive(Drop)]
pub struct Numbered {
    pub numbers: Vec<u32>,
    pub firsts: Vec<u32>,
}

/// Numbers the groups in the order of their least cities.
pub fn number(alloc: Global, n: u32, groups: &[u32]) -> Result<Numbered, AllocError>
    requires few { n ≤ 2000 }
    requires groups { AreGroups n groups.now }
    ensures { IfOk result (λ g. IsNumbered n groups.now g) }
{
    let mut all = Numbered {
        numbers: Vec::new(alloc),
        firsts: Vec::new(alloc),
    };
    for k in 0..n {
        all = with_city(all, k, groups[k as usize])?;
    }
    Ok(all)
}

/// How many groups there are.
pub fn count(numbered: &Numbered) -> u32
    requires { length numbered.now.firsts.items ≤ 2000 }
    ensures { result ≡ length numbered.now.firsts.items }
{
    numbered.firsts.len() as u32
}

/// The numbers with one city more, in the group of a city before it or alone.
fn with_city(all: Numbered, k: u32, group: u32) -> Result<Numbered, AllocError>
    requires few { k < 2000 }
    requires size { length all.numbers.items ≡ k }
    requires fewer { length all.firsts.items ≤ k }
    requires before { group ≤ k }
    ensures joined { IfOk result (λ g. IsWithCity all k group g) }
{
    let Numbered {
        mut numbers,
        mut firsts,
    } = all;
    if group < k {
        let number = numbers[group as usize];
        numbers.push(number)?;
    } else {
        numbers.push(firsts.len() as u32)?;
        firsts.push(k)?;
    }
    Ok(Numbered { numbers, firsts })
}

/// The cities of the groups in a set.
pub fn cities_of(
    alloc: Global,
    n: u32,
    numbers: &[u32],
    side: &CitySet,
) -> Result<CitySet, AllocError>
    requires many { 3 ≤ n }
    requires few { n ≤ 2000 }
    ensures { IfOk result (λ s. IsMapped n numbers.now side.now s) }
{
    let cities = listed(alloc, n, numbers, side)?;
    match CitySet::new(alloc, n, cities) {
        Ok(set) => Ok(set),
        Err(CitySetError::NotRising) => unreachable!(),
        Err(CitySetError::NoMemory) => Err(AllocError),
    }
}

/// The same, as a list.
fn listed(alloc: Global, n: u32, numbers: &[u32], side: &CitySet) -> Result<Vec<u32>, AllocError>
    ensures set { IfOk result (λ v. IsSet n v.items) }
    ensures members { IfOk result (λ v. (k : ℕ) → k < n → has v.items k ≡ has side.now.cities (slice_index numbers.now k)) }
{
    let mut cities = Vec::new(alloc);
    for k in 0..n {
        if side.contains(number_of(numbers, k)) {
            cities.push(k)?;
        }
    }
    Ok(cities)
}

/// The number of a city's group.
#[inline]
fn number_of(numbers: &[u32], city: u32) -> u32
    ensures { result ≡ slice_index numbers.now city }
{
    numbers.get(city as usize).copied().unwrap_or(0)
}
