//! The tour and its length.
ghost use Rattle.std.specs.Prelude.{◌≡◌, ◌≤◌, ◌==◌, length, IfOk, IfSome, MatchOption};
ghost use Rattle.std.specs.Option.{is_some};
ghost use Rattle.tspdef.specs.Tours.{IsTour};
ghost use Rattle.tspdef.specs.Instances.{length_in};
ghost use Rattle.certdef.specs.Accepted.{from_zero as lowered};
ghost use Rattle.certdef.specs.Tests as tests;
ghost use Rattle.certtests.specs.Places.{AreFromOne};

use crate::steps::are_steps;
use cyc::{Tour, TourError};
use std::alloc::{AllocError, Global};
use tspinst::Instance;

/// The tour through cities from 1, if it is a tour of the instance, with each fixed pair as a step, in its canonical form.
/// O(cities + fixed pairs).
pub fn canonical_tour(
    alloc: Global,
    instance: &Instance,
    cities: &[u64],
) -> Result<Option<Tour>, AllocError>
    ensures found { IfOk result (λ o. is_some o ≡ tests.is_tour_from_one instance.now cities.now) }
    ensures value { IfOk result (λ o. IfSome o (λ t. t ≡ lowered cities.now)) }
{
    let Some(numbers) = from_zero(alloc, instance.n(), cities)? else {
        return Ok(None);
    };
    if !is_canonical(&numbers) {
        return Ok(None);
    }
    let Some(tour) = tour_of(alloc, instance.n(), numbers)? else {
        return Ok(None);
    };
    if !are_steps(alloc, tour.cities(), instance.fixed())? {
        return Ok(None);
    }
    Ok(Some(tour))
}

/// Cities from 0, of cities from 1, if each is one of n cities.
fn from_zero(alloc: Global, n: u32, cities: &[u64]) -> Result<Option<Vec<u32>>, AllocError>
    ensures { IfOk result (λ r. MatchOption r (¬ AreFromOne n cities.now) (λ v. AreFromOne n cities.now × (v.items ≡ lowered cities.now))) }
{
    let mut numbers = Vec::with_capacity(alloc, cities.len())?;
    for city in cities {
        if *city == 0 || *city > u64::from(n) {
            return Ok(None);
        }
        numbers.push((*city - 1) as u32)?;
    }
    Ok(Some(numbers))
}

/// Whether city 0 comes first, and the second city is less than the last.
fn is_canonical(cities: &[u32]) -> bool
    ensures { result ≡ tests.is_canonical cities.now }
{
    if cities.len() < 2 {
        return false;
    }
    cities[0] == 0 && cities[1] < cities[cities.len() - 1]
}

/// The tour through cities, if it is one.
fn tour_of(alloc: Global, n: u32, cities: Vec<u32>) -> Result<Option<Tour>, AllocError>
    requires many { 3 ≤ n }
    requires few { n ≤ 2000 }
    ensures { IfOk result (λ r. MatchOption r (¬ IsTour n cities.items) (λ t. IsTour n cities.items × (t ≡ cities.items))) }
{
    match Tour::new(alloc, n, cities) {
        Ok(tour) => Ok(Some(tour)),
        Err(TourError::NotATour) => Ok(None),
        Err(TourError::NoMemory) => Err(AllocError),
    }
}

/// Whether a tour of the instance has this length.
pub fn has_length(instance: &Instance, tour: &Tour, long: u64) -> bool
    requires { length tour.now ≡ instance.now.n }
    ensures { result ≡ (length_in instance.now tour.now == long) }
{
    instance.length(tour) == long
}
