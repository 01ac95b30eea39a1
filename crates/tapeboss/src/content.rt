//! The duals of a closed leaf, line by line.
ghost use Rattle.std.specs.Prelude.{◌≡◌, ◌≤◌, [], nat_le, IfOk, IfSome};
ghost use Rattle.std.specs.Option.{option_map};
ghost use Rattle.std.specs.List.{AllByRecursion};
ghost use Rattle.certdef.specs.Verdicts.{after};
ghost use Rattle.certtests.specs.Places.{IsFromOne};
ghost use Rattle.tapeboss.specs.Messages as defs;

use crate::lines::Lines;
use std::alloc::{AllocError, Global};

/// So many cities with their duals; none where the lines are not of the form, or the cities do not rise.
pub(crate) fn read_cities(
    alloc: Global,
    lines: &mut Lines<'_>,
    count: u32,
) -> Result<Option<Vec<(u32, i64)>>, AllocError>
    ensures value { IfOk result (λ o. option_map (λ v. (v.items, lines.new.rest.now)) o ≡ defs.cities_on lines.old.n [] count lines.old.rest.now) }
    ensures same { lines.new.n ≡ lines.old.n }
{
    let mut cities = Vec::new(alloc);
    for _ in 0..count {
        let Some(city) = next_city(alloc, lines, &cities)? else {
            return Ok(None);
        };
        cities.push(city)?;
    }
    Ok(Some(cities))
}

/// The city and its dual that come next, if they may come behind those so far.
fn next_city(
    alloc: Global,
    lines: &mut Lines<'_>,
    so_far: &[(u32, i64)],
) -> Result<Option<(u32, i64)>, AllocError>
    ensures value { IfOk result (λ o. option_map (λ p. (p, lines.new.rest.now)) o ≡ defs.next_city lines.old.n so_far.now lines.old.rest.now) }
    ensures same { lines.new.n ≡ lines.old.n }
{
    match lines.city(alloc)? {
        Some(city) if may_follow_city(so_far, city.0) => Ok(Some(city)),
        _ => Ok(None),
    }
}

/// So many cuts, by their numbers among those that are listed, with their duals.
pub(crate) fn read_cut_duals(
    alloc: Global,
    lines: &mut Lines<'_>,
    listed: usize,
    count: u32,
) -> Result<Option<Vec<(u32, u64)>>, AllocError>
    ensures value { IfOk result (λ o. option_map (λ v. (v.items, lines.new.rest.now)) o ≡ defs.cut_duals_on lines.old.n listed [] count lines.old.rest.now) }
    ensures numbers { IfOk result (λ o. IfSome o (λ v. AllByRecursion (λ q. IsFromOne listed q.0) v.items)) }
    ensures same { lines.new.n ≡ lines.old.n }
{
    let mut duals = Vec::new(alloc);
    for _ in 0..count {
        let Some(dual) = next_cut_dual(alloc, lines, listed, &duals)? else {
            return Ok(None);
        };
        duals.push(dual)?;
    }
    Ok(Some(duals))
}

/// The cut and its dual that come next, if they may come behind those so far.
fn next_cut_dual(
    alloc: Global,
    lines: &mut Lines<'_>,
    listed: usize,
    so_far: &[(u32, u64)],
) -> Result<Option<(u32, u64)>, AllocError>
    ensures value { IfOk result (λ o. option_map (λ p. (p, lines.new.rest.now)) o ≡ defs.next_cut_dual lines.old.n listed so_far.now lines.old.rest.now) }
    ensures number { IfOk result (λ o. IfSome o (λ q. IsFromOne listed q.0)) }
    ensures same { lines.new.n ≡ lines.old.n }
{
    match lines.cut_dual(alloc)? {
        Some(dual) if may_follow(so_far, dual.0) && dual.0 as usize <= listed => Ok(Some(dual)),
        _ => Ok(None),
    }
}

/// So many conditions, by their depths, with their duals.
pub(crate) fn read_condition_duals(
    alloc: Global,
    lines: &mut Lines<'_>,
    count: u32,
) -> Result<Option<Vec<(u32, u64)>>, AllocError>
    ensures value { IfOk result (λ o. option_map (λ v. (v.items, lines.new.rest.now)) o ≡ defs.condition_duals_on lines.old.n [] count lines.old.rest.now) }
    ensures same { lines.new.n ≡ lines.old.n }
{
    let mut duals = Vec::new(alloc);
    for _ in 0..count {
        let Some(dual) = next_condition_dual(alloc, lines, &duals)? else {
            return Ok(None);
        };
        duals.push(dual)?;
    }
    Ok(Some(duals))
}

/// The condition and its dual that come next, if they may come behind those so far.
fn next_condition_dual(
    alloc: Global,
    lines: &mut Lines<'_>,
    so_far: &[(u32, u64)],
) -> Result<Option<(u32, u64)>, AllocError>
    ensures value { IfOk result (λ o. option_map (λ p. (p, lines.new.rest.now)) o ≡ defs.next_condition_dual lines.old.n so_far.now lines.old.rest.now) }
    ensures same { lines.new.n ≡ lines.old.n }
{
    match lines.condition_dual(alloc)? {
        Some(dual) if may_follow(so_far, dual.0) => Ok(Some(dual)),
        _ => Ok(None),
    }
}

/// Whether a city may come after those of a list.
fn may_follow_city(list: &[(u32, i64)], next: u32) -> bool
    ensures { result ≡ nat_le (after list.now) next }
{
    match list.last() {
        Some(last) => last.0 < next,
        None => 1 <= next,
    }
}

/// Whether a number may come after those of a list.
fn may_follow(list: &[(u32, u64)], next: u32) -> bool
    ensures { result ≡ nat_le (after list.now) next }
{
    match list.last() {
        Some(last) => last.0 < next,
        None => 1 <= next,
    }
}
