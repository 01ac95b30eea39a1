//! The closing that the duals of a leaf are.
ghost use Rattle.std.specs.Prelude.{◌≡◌, ℕ, ◌≤◌, List, [], ◌∷◌, length, map, replicate, IfOk, ℤ, pos};
ghost use Rattle.std.specs.List.{AllByRecursion};
ghost use Rattle.certdef.specs.Accepted as defs;
ghost use Rattle.certtests.specs.Places.{IsFromOne};

use cutform::Cut;
use pricer::Closing;
use std::alloc::{AllocError, Global};

/// The closing that duals are: of cities by their numbers, of cuts by their numbers in a list, and of conditions by depth.
pub(crate) fn closing_of(
    alloc: Global,
    n: u32,
    cuts: &[Cut],
    cities: &[(u32, i64)],
    cut_duals: &[(u32, u64)],
    condition_duals: &[(u32, u64)],
) -> Result<Closing, AllocError>
    requires { AllByRecursion (λ q. IsFromOne (length cuts.now) q.0) cut_duals.now }
    ensures { IfOk result (λ c. c ≡ defs.closing_of n cuts.now (record { cities = cities.now; cuts = cut_duals.now; conds = condition_duals.now })) }
{
    let city = city_duals(alloc, n, cities)?;
    let named = named_cuts(alloc, cuts, cut_duals)?;
    let conds = Vec::from_slice(alloc, condition_duals)?;
    Ok(Closing::new(city, named, conds))
}

/// The dual of each of n cities: 0 where none is given, and where there are several the first.
fn city_duals(alloc: Global, n: u32, given: &[(u32, i64)]) -> Result<Vec<i64>, AllocError>
    ensures { IfOk result (λ v. v.items ≡ defs.duals_from given.now 1 n) }
{
    let mut duals = zeros(alloc, n)?;
    lay(&mut duals, given);
    Ok(duals)
}

fn zeros(alloc: Global, n: u32) -> Result<Vec<i64>, AllocError>
    ensures { IfOk result (λ v. v.items ≡ replicate n (pos 0)) }
{
    vec![in alloc; 0i64; n as usize]
}

/// Writes the dual of each city that has one. They are gone through from the last one back, so that the first stays.
fn lay(duals: &mut [i64], given: &[(u32, i64)])
    requires { duals.old ≡ defs.duals_from [] 1 (length duals.old) }
    ensures { duals.new ≡ defs.duals_from given.now 1 (length duals.old) }
{
    let mut rest = given;
    while let Some((dual, more)) = rest.split_last() {
        lay_one(duals, dual.0, dual.1);
        rest = more;
    }
}

/// Writes the dual of a city from 1, if there is the city.
fn lay_one(duals: &mut [i64], city: u32, dual: i64)
    ensures { (given : List (ℕ × ℤ)) → duals.old ≡ defs.duals_from given 1 (length duals.old)
        → duals.new ≡ defs.duals_from ((city, dual) ∷ given) 1 (length duals.old) }
{
    let place = city as usize;
    if 1 <= place && place <= duals.len() {
        duals[place - 1] = dual;
    }
}

/// The cuts that are named by their numbers in a list, each with its dual.
fn named_cuts(
    alloc: Global,
    cuts: &[Cut],
    duals: &[(u32, u64)],
) -> Result<Vec<(Cut, u64)>, AllocError>
    requires { AllByRecursion (λ q. IsFromOne (length cuts.now) q.0) duals.now }
    ensures { IfOk result (λ v. v.items ≡ map (λ q. (defs.cut_at cuts.now q.0, q.1)) duals.now) }
{
    let mut named = Vec::with_capacity(alloc, duals.len())?;
    for (number, dual) in duals {
        named.push((named_cut(alloc, cuts, *number)?, *dual))?;
    }
    Ok(named)
}

/// The cut with a number, from 1, in a list.
fn named_cut(alloc: Global, cuts: &[Cut], number: u32) -> Result<Cut, AllocError>
    requires { IsFromOne (length cuts.now) number }
    ensures { IfOk result (λ c. c ≡ defs.cut_at cuts.now number) }
{
    cuts[number as usize - 1].copy(alloc)
}
