//! One comb for handles that are alike.
ghost use Rattle.std.specs.Prelude.{◌≡◌, length, All, IfOk};
ghost use Rattle.sepblos.specs.Violated.{IsWorth};

use crate::intervals::ONE;
use crate::support::Support;
use cutform::Cut;
use cyc::{CitySet, Frac};
use std::alloc::{AllocError, Global};

/// Handles that differ by fewer cities are alike.
const FEW: usize = 3;

/// Those of the cuts that no other is like that the values miss by more; of two that they miss by as much, the first.
///
/// Cuts are alike where their first sets, or one and the rest of the other, differ by fewer than three cities. O(cuts^2 * cities of
/// a set), and O(pairs of the cities of their sets) to see by how much they are missed.
pub(crate) fn best_of_alike(
    alloc: Global,
    x: &Frac,
    support: &Support,
    cuts: Vec<Cut>,
) -> Result<Vec<Cut>, AllocError>
    requires { All (IsWorth x.now) cuts.items }
    ensures { IfOk result (λ kept. All (IsWorth x.now) kept.items) }
{
    let misses = misses_of(alloc, support, &cuts)?;
    let beaten = beaten_of(alloc, &cuts, &misses)?;
    without(alloc, x, cuts, &beaten)
}

/// By how much the values miss each cut, in units.
fn misses_of(alloc: Global, support: &Support, cuts: &[Cut]) -> Result<Vec<i64>, AllocError> {
    let mut misses = Vec::with_capacity(alloc, cuts.len())?;
    for cut in cuts {
        misses.push(miss_of(support, cut))?;
    }
    Ok(misses)
}

/// By how much the values miss a cut, in units.
fn miss_of(support: &Support, cut: &Cut) -> i64 {
    let mut miss = i64::from(cut.rhs()).wrapping_mul(ONE);
    for set in cut.sets() {
        miss = miss.wrapping_sub(crossing(support, set));
    }
    miss
}

/// The crossing weight of a set, in units.
fn crossing(support: &Support, set: &CitySet) -> i64 {
    let mut weight: i64 = 0;
    for city in set.cities() {
        weight = weight.wrapping_add(leaving(support, *city, set));
    }
    weight
}

/// What the pairs of a city add up to that leave a set.
#[inline]
fn leaving(support: &Support, city: u32, set: &CitySet) -> i64 {
    let mut weight: i64 = 0;
    for arm in support.arms(city) {
        if !set.contains(arm.city) {
            weight = weight.wrapping_add(i64::from(arm.value));
        }
    }
    weight
}

/// Which cuts another one is like that is missed by more, or as much and stands before.
fn beaten_of(alloc: Global, cuts: &[Cut], misses: &[i64]) -> Result<Vec<bool>, AllocError> {
    let mut beaten = Vec::with_capacity(alloc, cuts.len())?;
    for place in 0..cuts.len() {
        beaten.push(is_beaten(cuts, misses, place))?;
    }
    Ok(beaten)
}

/// Whether another cut is like the one at a place, and is missed by more, or as much and stands before.
fn is_beaten(cuts: &[Cut], misses: &[i64], place: usize) -> bool {
    for other in 0..cuts.len() {
        if goes_before(misses, other, place) && are_alike(cuts, other, place) {
            return true;
        }
    }
    false
}

/// Whether the cut at the first place is missed by more than that at the second, or as much and stands before.
#[inline]
fn goes_before(misses: &[i64], first: usize, second: usize) -> bool {
    match (misses.get(first), misses.get(second)) {
        (Some(a), Some(b)) => a > b || (a == b && first < second),
        _ => false,
    }
}

/// Whether the first sets of the cuts at two places, or one and the rest of the other, differ by few cities.
fn are_alike(cuts: &[Cut], first: usize, second: usize) -> bool {
    match (cuts.get(first), cuts.get(second)) {
        (Some(a), Some(b)) => match (a.sets().first(), b.sets().first()) {
            (Some(one), Some(other)) => differ_by_few(one, other),
            _ => false,
        },
        _ => false,
    }
}

/// Whether two sets, or one and the rest of the other, differ by few cities.
fn differ_by_few(a: &CitySet, b: &CitySet) -> bool {
    let n = a.n() as usize;
    let many = a.cities().len().saturating_add(b.cities().len());
    let apart = many.saturating_sub(shared(a, b).saturating_mul(2));
    apart < FEW || n.saturating_sub(apart) < FEW
}

/// How many cities two sets share.
fn shared(a: &CitySet, b: &CitySet) -> usize {
    let mut count: usize = 0;
    for city in a.cities() {
        if b.contains(*city) {
            count = count.wrapping_add(1);
        }
    }
    count
}

/// The cuts that are not beaten, from the last one on.
fn without(
    alloc: Global,
    _x: &Frac,
    cuts: Vec<Cut>,
    beaten: &[bool],
) -> Result<Vec<Cut>, AllocError>
    requires { All (IsWorth _x.now) cuts.items }
    ensures { IfOk result (λ kept. All (IsWorth _x.now) kept.items) }
{
    let mut rest = cuts;
    let mut kept = Vec::new(alloc);
    while let Some(cut) = rest.pop() {
        if beaten.get(rest.len()) == Some(&false) {
            kept.push(cut)?;
        }
    }
    Ok(kept)
}
