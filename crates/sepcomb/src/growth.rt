//! Teeth that grow along chains of pairs near one length.
ghost use Rattle.std.specs.Prelude.{◌≡◌, ℕ, Option, None, [], IfOk};
ghost use Rattle.cutform.specs.Cut.{cities_of_each};
ghost use Rattle.sepcomb.specs.Growth.{other_end, is_free, leads_on, lower, near_ones, next_city, path_from, outside, ends_of, grown};

use crate::tooth::{is_in, tooth_of};
use cyc::{CitySet, Entry, Frac};
use sepblos::NEAR_ONE;
use std::alloc::{AllocError, Global};

/// The pairs near one length, in the order of the entries: those along which teeth grow.
pub fn near_ones(alloc: Global, x: &Frac) -> Result<Vec<Entry>, AllocError>
    ensures { IfOk result (λ near. near.items ≡ near_ones x.now.entries) }
{
    let mut near = Vec::new(alloc);
    for entry in x.entries() {
        if entry.x >= NEAR_ONE {
            near.push(*entry)?;
        }
    }
    Ok(near)
}

/// The teeth of a handle that begin with these pairs: each in turn grows as far as it can, along the pairs near one length.
pub fn grown(
    alloc: Global,
    x: &Frac,
    near: &[Entry],
    handle: &CitySet,
    pairs: &[Entry],
) -> Result<Vec<CitySet>, AllocError>
    requires near { near.now ≡ near_ones x.now.entries }
    ensures { IfOk result (λ teeth. cities_of_each teeth.items ≡ grown x.now handle.now.cities (ends_of pairs.now) pairs.now) }
{
    let n = x.n();
    let mut used = ends_of(alloc, pairs)?;
    let mut teeth = Vec::new(alloc);
    for pair in pairs {
        let path = path_out(alloc, x, near, handle, &used, outside(handle, *pair))?;
        teeth.push(tooth_of(alloc, n, *pair, &path)?)?;
        used.extend_from_slice(&path)?;
    }
    Ok(teeth)
}

/// The cities of the pairs.
fn ends_of(alloc: Global, pairs: &[Entry]) -> Result<Vec<u32>, AllocError>
    ensures { IfOk result (λ cities. cities.items ≡ ends_of pairs.now) }
{
    let mut cities = Vec::new(alloc);
    for pair in pairs {
        cities.push(pair.u)?;
        cities.push(pair.v)?;
    }
    Ok(cities)
}

/// The city of a pair that is not in the handle.
fn outside(handle: &CitySet, pair: Entry) -> u32
    ensures { result ≡ outside handle.now.cities pair }
{
    if handle.contains(pair.u) {
        pair.v
    } else {
        pair.u
    }
}

/// The cities by which a tooth grows from a city outside the handle, one after the other.
fn path_out(
    alloc: Global,
    x: &Frac,
    near: &[Entry],
    handle: &CitySet,
    used: &[u32],
    from: u32,
) -> Result<Vec<u32>, AllocError>
    requires near { near.now ≡ near_ones x.now.entries }
    ensures { IfOk result (λ path. path.items ≡ path_from x.now.n x.now.entries handle.now.cities used.now [] from) }
{
    let mut path = Vec::new(alloc);
    let mut newest = from;
    for step in 0..x.n() {
        let Some(city) = next_city(x, near, handle, used, &path, newest) else {
            return Ok(path);
        };
        path.push(city)?;
        newest = city;
    }
    Ok(path)
}

/// The lowest city to which a pair near one length leads on, if there is one.
fn next_city(
    _x: &Frac,
    near: &[Entry],
    handle: &CitySet,
    used: &[u32],
    path: &[u32],
    newest: u32,
) -> Option<u32>
    requires near { near.now ≡ near_ones _x.now.entries }
    ensures { result ≡ next_city handle.now.cities used.now path.now newest None _x.now.entries }
{
    let mut best = None;
    for entry in near {
        if leads_on(handle, used, path, newest, *entry) {
            best = Some(lower(best, other_end(newest, *entry)));
        }
    }
    best
}

/// Whether the pair is near one length, and joins the newest city to one outside the handle that no tooth has.
fn leads_on(handle: &CitySet, used: &[u32], path: &[u32], newest: u32, entry: Entry) -> bool
    ensures { result ≡ leads_on handle.now.cities used.now path.now newest entry }
{
    entry.x >= NEAR_ONE
        && (entry.u == newest || entry.v == newest)
        && is_free(handle, used, path, other_end(newest, entry))
}

/// Whether a city is neither in the handle nor in a tooth.
fn is_free(handle: &CitySet, used: &[u32], path: &[u32], city: u32) -> bool
    ensures { result ≡ is_free handle.now.cities used.now path.now city }
{
    !handle.contains(city) && !is_in(used, city) && !is_in(path, city)
}

/// The other city of a pair.
fn other_end(city: u32, pair: Entry) -> u32
    ensures { result ≡ other_end city pair }
{
    if pair.u == city { pair.v } else { pair.u }
}

/// The lower of the best so far and another city.
fn lower(best: Option<u32>, city: u32) -> u32
    ensures { result ≡ lower best city }
{
    match best {
        Some(other) => other.min(city),
        None => city,
    }
}
