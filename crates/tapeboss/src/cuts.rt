//! The cuts that a report lists.
ghost use Rattle.std.specs.Prelude.{◌≡◌, ◌≤◌, [], map, IfOk, IfSome};
ghost use Rattle.std.specs.Option.{option_map};
ghost use Rattle.std.specs.List.{AllByRecursion};
ghost use Rattle.certdef.specs.Items.{fits};
ghost use Rattle.certline.specs.Said.{said};
ghost use Rattle.tspdef.specs.Cuts.{IsCut};
ghost use Rattle.certtests.specs.Listed.{to_one, pair_to_one, listed};
ghost use Rattle.tapeboss.specs.Messages as defs;

use crate::lines::Lines;
use certline::Item;
use certtests::{city_set, comb, odd, subtour};
use cutform::Cut;
use cyc::CitySet;
use std::alloc::{AllocError, Global};

/// So many cuts, if each is of the form and a cut. O(1) for each byte, beside what the cuts cost.
pub(crate) fn read_cuts(
    alloc: Global,
    lines: &mut Lines<'_>,
    count: u32,
) -> Result<Option<Vec<Cut>>, AllocError>
    requires many { 3 ≤ lines.old.n }
    requires few { lines.old.n ≤ 2000 }
    ensures value { IfOk result (λ o. option_map (λ v. (map listed v.items, lines.new.rest.now)) o ≡ defs.cuts_on lines.old.n [] count lines.old.rest.now) }
    ensures cuts { IfOk result (λ o. IfSome o (λ v. AllByRecursion (IsCut lines.old.n) v.items)) }
    ensures same { lines.new.n ≡ lines.old.n }
{
    let mut cuts = Vec::new(alloc);
    for _ in 0..count {
        let Some(cut) = read_cut(alloc, lines)? else {
            return Ok(None);
        };
        cuts.push(cut)?;
    }
    Ok(Some(cuts))
}

/// The cut that comes next.
fn read_cut(alloc: Global, lines: &mut Lines<'_>) -> Result<Option<Cut>, AllocError>
    requires many { 3 ≤ lines.old.n }
    requires few { lines.old.n ≤ 2000 }
    ensures value { IfOk result (λ o. option_map (λ c. (listed c, lines.new.rest.now)) o ≡ defs.cut_in lines.old.n lines.old.rest.now) }
    ensures is_cut { IfOk result (λ o. IfSome o (λ c. IsCut lines.old.n c)) }
    ensures same { lines.new.n ≡ lines.old.n }
{
    match lines.next(alloc)? {
        Some(Item::Subtour(set)) => {
            let set = city_set(alloc, lines.n, set)?;
            subtour(alloc, set)
        }
        Some(Item::Comb(teeth)) => read_comb(alloc, lines, teeth),
        Some(Item::Odd(pairs)) => read_odd(alloc, lines, pairs),
        _ => Ok(None),
    }
}

/// The comb of so many teeth whose handle comes next.
fn read_comb(alloc: Global, lines: &mut Lines<'_>, count: u32) -> Result<Option<Cut>, AllocError>
    requires many { 3 ≤ lines.old.n }
    requires few { lines.old.n ≤ 2000 }
    ensures value { IfOk result (λ o. option_map (λ c. (listed c, lines.new.rest.now)) o ≡ defs.comb_in lines.old.n count lines.old.rest.now) }
    ensures is_cut { IfOk result (λ o. IfSome o (λ c. IsCut lines.old.n c)) }
    ensures same { lines.new.n ≡ lines.old.n }
{
    let Some(handle) = lines.handle(alloc)? else {
        return Ok(None);
    };
    let handle = city_set(alloc, lines.n, handle)?;
    let Some(teeth) = read_teeth(alloc, lines, count)? else {
        return Ok(None);
    };
    comb(alloc, handle, teeth)
}

/// So many teeth.
fn read_teeth(
    alloc: Global,
    lines: &mut Lines<'_>,
    count: u32,
) -> Result<Option<Vec<CitySet>>, AllocError>
    requires many { 3 ≤ lines.old.n }
    requires few { lines.old.n ≤ 2000 }
    ensures value { IfOk result (λ o. option_map (λ v. (map (λ t. to_one t.cities) v.items, lines.new.rest.now)) o ≡ defs.teeth_on lines.old.n [] count lines.old.rest.now) }
    ensures same { lines.new.n ≡ lines.old.n }
{
    let mut teeth = Vec::new(alloc);
    for _ in 0..count {
        let Some(tooth) = next_tooth(alloc, lines)? else {
            return Ok(None);
        };
        teeth.push(tooth)?;
    }
    Ok(Some(teeth))
}

/// The tooth that comes next.
fn next_tooth(alloc: Global, lines: &mut Lines<'_>) -> Result<Option<CitySet>, AllocError>
    requires many { 3 ≤ lines.old.n }
    requires few { lines.old.n ≤ 2000 }
    ensures value { IfOk result (λ o. option_map (λ t. (to_one t.cities, lines.new.rest.now)) o ≡ defs.next_tooth lines.old.n [] lines.old.rest.now) }
    ensures same { lines.new.n ≡ lines.old.n }
{
    match lines.tooth(alloc)? {
        Some(set) => Ok(Some(city_set(alloc, lines.n, set)?)),
        None => Ok(None),
    }
}

/// The odd cut of so many pairs whose handle comes next.
fn read_odd(alloc: Global, lines: &mut Lines<'_>, count: u32) -> Result<Option<Cut>, AllocError>
    requires many { 3 ≤ lines.old.n }
    requires few { lines.old.n ≤ 2000 }
    ensures value { IfOk result (λ o. option_map (λ c. (listed c, lines.new.rest.now)) o ≡ defs.odd_in lines.old.n count lines.old.rest.now) }
    ensures is_cut { IfOk result (λ o. IfSome o (λ c. IsCut lines.old.n c)) }
    ensures same { lines.new.n ≡ lines.old.n }
{
    let Some(handle) = lines.handle(alloc)? else {
        return Ok(None);
    };
    let handle = city_set(alloc, lines.n, handle)?;
    let Some(pairs) = read_pairs(alloc, lines, count)? else {
        return Ok(None);
    };
    odd(alloc, handle, pairs)
}

/// So many pairs, of cities from 0.
fn read_pairs(
    alloc: Global,
    lines: &mut Lines<'_>,
    count: u32,
) -> Result<Option<Vec<(u32, u32)>>, AllocError>
    ensures value { IfOk result (λ o. option_map (λ v. (map pair_to_one v.items, lines.new.rest.now)) o ≡ defs.pairs_on lines.old.n [] count lines.old.rest.now) }
    ensures same { lines.new.n ≡ lines.old.n }
{
    let mut pairs = Vec::new(alloc);
    for _ in 0..count {
        let Some(pair) = next_pair(alloc, lines)? else {
            return Ok(None);
        };
        pairs.push(pair)?;
    }
    Ok(Some(pairs))
}

/// The pair that comes next, of cities from 0.
fn next_pair(alloc: Global, lines: &mut Lines<'_>) -> Result<Option<(u32, u32)>, AllocError>
    ensures value { IfOk result (λ o. option_map (λ p. (pair_to_one p, lines.new.rest.now)) o ≡ defs.next_pair lines.old.n [] lines.old.rest.now) }
    ensures same { lines.new.n ≡ lines.old.n }
{
    match lines.pair(alloc)? {
        Some((u, v)) => Ok(Some((u - 1, v - 1))),
        None => Ok(None),
    }
}
