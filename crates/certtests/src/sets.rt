//! Sets of cities.
ghost use Rattle.std.specs.Prelude.{◌≡◌, ◌≤◌, true, IfOk};
ghost use Rattle.certdef.specs.Items.{is_set};
ghost use Rattle.certdef.specs.Accepted.{from_zero as lowered};
ghost use Rattle.certdef.specs.Tests as tests;
ghost use Rattle.certtests.specs.Listed.{to_one};

use cyc::{CitySet, CitySetError};
use std::alloc::{AllocError, Global};

/// The set of some of the cities 1 to n, in rising order.
pub fn city_set(alloc: Global, n: u32, set: Vec<u32>) -> Result<CitySet, AllocError>
    requires many { 3 ≤ n }
    requires few { n ≤ 2000 }
    requires set { is_set n set.items ≡ true }
    ensures value { IfOk result (λ s. s ≡ record { n = n; cities = lowered set.items }) }
    ensures again { IfOk result (λ s. to_one s.cities ≡ set.items) }
{
    match CitySet::new(alloc, n, from_zero(set)) {
        Ok(set) => Ok(set),
        Err(CitySetError::NotRising) => unreachable!(),
        Err(CitySetError::NoMemory) => Err(AllocError),
    }
}

/// Cities from 0, of cities from 1, in the same memory.
fn from_zero(set: Vec<u32>) -> Vec<u32>
    ensures { result.items ≡ lowered set.items }
{
    let mut cities = set;
    for city in cities.iter_mut() {
        *city = city.saturating_sub(1);
    }
    cities
}

/// Whether the set is neither empty nor all cities.
pub fn is_proper(set: &CitySet) -> bool
    ensures { result ≡ tests.is_proper set.now.n set.now.cities }
{
    set.is_proper()
}
