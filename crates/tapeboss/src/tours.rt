//! Tours out of their lines.
ghost use Rattle.std.specs.Prelude.{◌≡◌, ◌≤◌, IfOk, MatchOption};
ghost use Rattle.tspdef.specs.Tours.{IsTour};
ghost use Rattle.certdef.specs.Accepted.{from_zero as lowered};
ghost use Rattle.certtests.specs.Places.{AreFromOne};
ghost use Rattle.tapeboss.specs.Messages as defs;

use crate::lines::Lines;
use cyc::{Tour, TourError};
use std::alloc::{AllocError, Global};

/// The tour that a text of one line says: any order of the n cities. O(n).
pub(crate) fn read_tour(alloc: Global, n: u32, text: &[u8]) -> Result<Option<Tour>, AllocError>
    requires many { 3 ≤ n }
    requires few { n ≤ 2000 }
    ensures { IfOk result (λ o. o ≡ defs.tour_in n text.now) }
{
    let mut lines = Lines::new(n, text);
    let Some(cities) = lines.tour(alloc)? else {
        return Ok(None);
    };
    if !lines.are_over() {
        return Ok(None);
    }
    let Some(numbers) = from_zero(alloc, n, &cities)? else {
        return Ok(None);
    };
    tour_of(alloc, n, numbers)
}

/// Cities from 0, of cities from 1, if each is one of n cities.
fn from_zero(alloc: Global, n: u32, cities: &[u64]) -> Result<Option<Vec<u32>>, AllocError>
    ensures { IfOk result (λ r. MatchOption r (¬ AreFromOne n cities.now) (λ v. AreFromOne n cities.now × (v.items ≡ lowered cities.now))) }
{
    let mut numbers = Vec::with_capacity(alloc, cities.len())?;
    for city in cities {
        if *city == 0 || *city > u64::from(n) {
            return Ok(None);
        }
        numbers.push((*city - 1) as u32)?;
    }
    Ok(Some(numbers))
}

/// The tour through cities, if it is one.
fn tour_of(alloc: Global, n: u32, cities: Vec<u32>) -> Result<Option<Tour>, AllocError>
    requires many { 3 ≤ n }
    requires few { n ≤ 2000 }
    ensures { IfOk result (λ r. MatchOption r (¬ IsTour n cities.items) (λ t. IsTour n cities.items × (t ≡ cities.items))) }
{
    match Tour::new(alloc, n, cities) {
        Ok(tour) => Ok(Some(tour)),
        Err(TourError::NotATour) => Ok(None),
        Err(TourError::NoMemory) => Err(AllocError),
    }
}
