//! Subtour cuts of light sets.
ghost use Rattle.std.specs.Prelude.{◌≡◌, length, IfOk};
ghost use Rattle.std.specs.List.{All};
ghost use Rattle.sepsub.specs.LeastSets.{IsViolated};
ghost use Rattle.sepblos.specs.Violated.{IsWorth};
ghost use Rattle.grunt.specs.Missed.{HasNoLightSet};

use cutform::{Cut, CutError};
use cyc::{CitySet, Frac};
use sepsub::sweep;
use std::alloc::{AllocError, Global};

/// The subtour cuts of the light sets that one pass over the values finds: none only where no proper set is crossed by less
/// than 2^10 units below twice.
pub(crate) fn light_cuts(alloc: Global, x: &Frac) -> Result<Vec<Cut>, AllocError>
    ensures worth { IfOk result (λ cuts. All (IsWorth x.now) cuts.items) }
    ensures none { IfOk result (λ cuts. length cuts.items ≡ 0 → HasNoLightSet x.now) }
{
    let swept = sweep(alloc, x)?;
    cuts_of(alloc, x, swept.sets)
}

/// The subtour cut of each set, from the last one on.
fn cuts_of(alloc: Global, x: &Frac, sets: Vec<CitySet>) -> Result<Vec<Cut>, AllocError>
    requires { All (IsViolated x.now) sets.items }
    ensures worth { IfOk result (λ cuts. All (IsWorth x.now) cuts.items) }
    ensures many { IfOk result (λ cuts. length cuts.items ≡ length sets.items) }
{
    let mut rest = sets;
    let mut cuts = Vec::with_capacity(alloc, rest.len())?;
    while let Some(set) = rest.pop() {
        cuts.push(cut_of(alloc, x, set)?)?;
    }
    Ok(cuts)
}

/// The subtour cut of a set.
fn cut_of(alloc: Global, _x: &Frac, set: CitySet) -> Result<Cut, AllocError>
    requires { IsViolated _x.now set }
    ensures { IfOk result (IsWorth _x.now) }
{
    match Cut::subtour(alloc, set) {
        Ok(cut) => Ok(cut),
        Err(CutError::NoMemory) => Err(AllocError),
        Err(_) => unreachable!(),
    }
}
