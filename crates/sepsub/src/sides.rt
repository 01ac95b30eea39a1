//! Sides turned into sets and marks.
ghost use Rattle.std.specs.Prelude.{◌≡◌, ◌<◌, ◌≤◌, ℕ, not, false, length, IfOk};
ghost use Rattle.tspdef.specs.Sets.{has, IsSet, IsProper};
ghost use Rattle.maxflow.specs.Flows.{is_stop};
ghost use Rattle.sepsub.specs.Grouping.{IsTurned};

use cyc::{CitySet, CitySetError};
use std::alloc::{AllocError, Global};

/// The set of all other cities.
pub fn complement(alloc: Global, side: &CitySet) -> Result<CitySet, AllocError>
    ensures cities { IfOk result (λ s. s.n ≡ side.now.n) }
    ensures set { IfOk result (λ s. IsSet side.now.n s.cities) }
    ensures others { IfOk result (λ s. (k : ℕ) → k < side.now.n → has s.cities k ≡ not (has side.now.cities k)) }
{
    let n = side.n();
    let cities = outside(alloc, n, side)?;
    match CitySet::new(alloc, n, cities) {
        Ok(set) => Ok(set),
        Err(CitySetError::NotRising) => unreachable!(),
        Err(CitySetError::NoMemory) => Err(AllocError),
    }
}

/// A proper set, or its complement, whichever holds city 0.
pub fn with_home(alloc: Global, side: CitySet) -> Result<CitySet, AllocError>
    requires { IsProper side.n side.cities }
    ensures { IfOk result (λ s. IsTurned side s) }
{
    if side.contains(0) {
        return Ok(side);
    }
    let set = complement(alloc, &side)?;
    Ok(set)
}

/// The cities below `n` outside a set, in rising order.
fn outside(alloc: Global, n: u32, side: &CitySet) -> Result<Vec<u32>, AllocError>
    ensures set { IfOk result (λ v. IsSet n v.items) }
    ensures others { IfOk result (λ v. (k : ℕ) → k < n → has v.items k ≡ not (has side.now.cities k)) }
{
    let mut cities = Vec::new(alloc);
    for k in 0..n {
        if !side.contains(k) {
            cities.push(k)?;
        }
    }
    Ok(cities)
}

/// A mark for each city of a set.
pub fn marks_of(alloc: Global, side: &CitySet) -> Result<Vec<bool>, AllocError>
    ensures size { IfOk result (λ v. length v.items ≡ side.now.n) }
    ensures marks { IfOk result (λ v. (k : ℕ) → k < side.now.n → is_stop v.items k ≡ has side.now.cities k) }
{
    let mut marks = Vec::new(alloc);
    for k in 0..side.n() {
        marks.push(side.contains(k))?;
    }
    Ok(marks)
}

/// No mark on any of `n` cities.
pub fn no_marks(alloc: Global, n: u32) -> Result<Vec<bool>, AllocError>
    ensures size { IfOk result (λ v. length v.items ≡ n) }
    ensures none { IfOk result (λ v. (k : ℕ) → is_stop v.items k ≡ false) }
{
    let marks = vec![in alloc; false; n as usize]?;
    Ok(marks)
}
