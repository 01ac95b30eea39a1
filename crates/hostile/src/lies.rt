//! What a worker may make up.
ghost use Rattle.std.specs.Prelude.{◌≡◌, ◌≤◌};

use crate::honest::balanced;
use branchx::{Branch, Cond, Path};
use cutform::{Cut, CutError};
use cyc::{CitySet, CitySetError, Tour};
use pricer::{Closing, Report};
use std::alloc::{AllocError, Global};
use tspgen::make;
use tspinst::Instance;
use worker::root_path;

/// A closing whose duals are all so great.
pub(crate) fn flat(alloc: Global, cities: usize, dual: i64) -> Result<Report, AllocError> {
    let city = vec![in alloc; dual; cities]?;
    Ok(Report::Closed(Closing::new(city, Vec::new(alloc), Vec::new(alloc))))
}

/// The closing of the node some conditions above, or of the root.
pub(crate) fn of_another_node(
    alloc: Global,
    instance: &Instance,
    path: &Path,
    draw: u64,
) -> Result<Report, AllocError> {
    let mut other = path.copy(alloc)?;
    for _ in 0..draw % 4 + 1 {
        let _taken = other.pop();
    }
    Ok(Report::Closed(balanced(alloc, instance, &other)?))
}

/// The closing of a node where a city has one pair or none left, as if this were one.
pub(crate) fn of_a_starved_city(
    alloc: Global,
    instance: &Instance,
    best: u64,
    draw: u64,
) -> Result<Report, AllocError> {
    let mut city = vec![in alloc; 0i64; instance.n() as usize]?;
    if let Some(dual) = city.get_mut(draw as usize % 8) {
        *dual = (best.saturating_add(1) & 0x3ff_ffff_ffff).cast_signed() << 20;
    }
    Ok(Report::Closed(Closing::new(city, Vec::new(alloc), Vec::new(alloc))))
}

/// The closing of the root of another instance, of so many cities.
pub(crate) fn of_another_instance(alloc: Global, n: u32, draw: u64) -> Result<Report, AllocError>
    requires many { 3 ≤ n }
    requires few { n ≤ 2000 }
{
    let other = make(alloc, draw, n)?;
    let root = root_path(alloc, &other)?;
    Ok(Report::Closed(balanced(alloc, &other, &root)?))
}

/// A closing that has a dual for a condition at a depth where there is none, or none on a set.
pub(crate) fn past_the_path(alloc: Global, n: u32, depth: u32) -> Result<Report, AllocError> {
    let city = vec![in alloc; 0i64; n as usize]?;
    let mut conds = Vec::new(alloc);
    conds.push((depth, 1u64))?;
    Ok(Report::Closed(Closing::new(city, Vec::new(alloc), conds)))
}

/// A closing with a dual for a cut of other cities.
pub(crate) fn with_a_foreign_cut(alloc: Global, n: u32) -> Result<Report, AllocError> {
    let city = vec![in alloc; 0i64; n as usize]?;
    let mut cuts = Vec::new(alloc);
    if let Some(cut) = foreign_cut(alloc)? {
        cuts.push((cut, 1 << 40))?;
    }
    Ok(Report::Closed(Closing::new(city, cuts, Vec::new(alloc))))
}

/// The subtour cut of two cities of nineteen.
fn foreign_cut(alloc: Global) -> Result<Option<Cut>, AllocError> {
    let Some(set) = set_of(alloc, 19, &[0, 1])? else {
        return Ok(None);
    };
    match Cut::subtour(alloc, set) {
        Ok(cut) => Ok(Some(cut)),
        Err(CutError::NoMemory) => Err(AllocError),
        Err(_) => Ok(None),
    }
}

fn set_of(alloc: Global, n: u32, cities: &[u32]) -> Result<Option<CitySet>, AllocError>
    requires many { 3 ≤ n }
    requires few { n ≤ 2000 }
{
    match CitySet::new(alloc, n, Vec::from_slice(alloc, cities)?) {
        Ok(set) => Ok(Some(set)),
        Err(CitySetError::NoMemory) => Err(AllocError),
        Err(_) => Ok(None),
    }
}

/// A split by a pair that the path has decided; by the first pair where it has decided none.
pub(crate) fn by_a_decided_pair(path: &Path) -> Report {
    for cond in path.conditions() {
        if let Some((one, other)) = cond.pair() {
            return Report::Split(Branch::Edge(one, other));
        }
    }
    Report::Split(Branch::Edge(0, 1))
}

/// A split by what is no pair.
pub(crate) fn by_no_pair(n: u32, draw: u64) -> Report {
    match draw % 3 {
        0 => Report::Split(Branch::Edge(n, 3)),
        1 => Report::Split(Branch::Edge(2, 2)),
        _ => Report::Split(Branch::Edge(3, 1)),
    }
}

/// A split by a set that the path has; by the first two cities where it has none.
pub(crate) fn by_a_stale_set(alloc: Global, n: u32, path: &Path) -> Result<Report, AllocError>
    requires many { 3 ≤ n }
    requires few { n ≤ 2000 }
{
    for cond in path.conditions() {
        if let Cond::Two(set) | Cond::Four(set) = cond {
            return Ok(Report::Split(Branch::Clique(set.copy(alloc)?)));
        }
    }
    by_a_set(alloc, n, &[0, 1])
}

/// A split by a set of cities; by a pair where they are none.
pub(crate) fn by_a_set(alloc: Global, n: u32, cities: &[u32]) -> Result<Report, AllocError>
    requires many { 3 ≤ n }
    requires few { n ≤ 2000 }
{
    match set_of(alloc, n, cities)? {
        Some(set) => Ok(Report::Split(Branch::Clique(set))),
        None => Ok(Report::Split(Branch::Edge(1, 2))),
    }
}

/// A tour of so many cities, by their numbers but for two that change places.
pub(crate) fn tour(alloc: Global, n: u32, draw: u64) -> Result<Tour, AllocError>
    requires many { 3 ≤ n }
    requires few { n ≤ 2000 }
{
    let mut cities = Vec::new(alloc);
    for city in 0..n {
        cities.push(city)?;
    }
    let place = draw as usize % 8;
    if place < cities.len() {
        cities.swap(0, place);
    }
    tour_of(alloc, n, cities)
}

/// The tour of a list of so many cities.
pub(crate) fn tour_of(alloc: Global, n: u32, cities: Vec<u32>) -> Result<Tour, AllocError>
    requires many { 3 ≤ n }
    requires few { n ≤ 2000 }
{
    match Tour::new(alloc, n, cities) {
        Ok(tour) => Ok(tour),
        Err(_) => Err(AllocError),
    }
}
