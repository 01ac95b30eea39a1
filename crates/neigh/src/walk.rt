//! The walk that goes to the nearest city each time, and keeps to the fixed pairs.

ghost use Rattle.std.specs.Prelude.{◌≡◌, ◌==◌, ◌||◌, ◌-◌, ◌<◌, ◌≤◌, ◌++◌, ℕ, length, vec_len, slice_index, IfOk};
ghost use Rattle.std.specs.List.{range_with_len, filter};
ghost use Rattle.tspdef.specs.Tours.{AreDistinct, has_step};
ghost use Rattle.tspdef.specs.Fixed.{pairs_at as count_at};
ghost use Rattle.tspdef.specs.Instances.{IsTourOf, dist};
ghost use Rattle.neigh.specs.Walk.{nearest_in, without, is_end, open_to as all_open, next_city as the_next, start_city as the_start, nearest_walk as the_walk, ToursExist};

use cyc::{Tour, TourError};
use std::alloc::{AllocError, Global};
use tspinst::Instance;

/// Where in a list the city nearest to another stands, of equally near ones the first.
fn nearest_place(instance: &Instance, here: u32, rest: &[u32]) -> usize
    requires here { here < instance.now.n }
    requires some { 0 < length rest.now }
    requires below { (j : ℕ) → j < length rest.now → slice_index rest.now j < instance.now.n }
    ensures within { result < length rest.now }
    ensures nearest { slice_index rest.now result ≡ nearest_in (dist instance.now here) rest.now }
{
    let mut best = 0;
    let mut least = instance.d(here, rest[0]);
    for place in 1..rest.len() {
        let far = instance.d(here, rest[place]);
        if far < least {
            best = place;
            least = far;
        }
    }
    best
}

/// The city of a list nearest to another, of equally near ones the first; city 0 where the list is empty.
fn nearest_city(instance: &Instance, here: u32, list: &[u32]) -> u32
    requires here { here < instance.now.n }
    requires below { (j : ℕ) → j < length list.now → slice_index list.now j < instance.now.n }
    ensures nearest { result ≡ nearest_in (dist instance.now here) list.now }
    ensures city { result < instance.now.n }
{
    let _n = instance.n();
    if list.is_empty() {
        return 0;
    }
    list[nearest_place(instance, here, list)]
}

/// Whether a pair has a city.
fn touches(pair: (u32, u32), city: u32) -> bool
    ensures { result ≡ ((pair.0 == city) || (pair.1 == city)) }
{
    pair.0 == city || pair.1 == city
}

/// How many of some pairs have a city.
fn pairs_at(pairs: &[(u32, u32)], city: u32) -> usize
    ensures { result ≡ count_at pairs.now city }
{
    let mut count = 0;
    for pair in pairs {
        if touches(*pair, city) {
            count += 1;
        }
    }
    count
}

/// How many fixed pairs each city has. O(n * pairs).
fn fixed_counts(alloc: Global, instance: &Instance) -> Result<Vec<usize>, AllocError>
    ensures size { IfOk result (λ counts. vec_len counts ≡ instance.now.n) }
    ensures counts { IfOk result (λ counts. (c : ℕ) → c < instance.now.n → slice_index counts.items c ≡ count_at instance.now.fixed c) }
{
    let n = instance.n();
    let mut counts = Vec::with_capacity(alloc, n as usize)?;
    for city in 0..n {
        counts.push(pairs_at(instance.fixed(), city))?;
    }
    Ok(counts)
}

/// Adds the cities of a list that a fixed pair joins to a city.
fn add_partners(
    instance: &Instance,
    here: u32,
    rest: &[u32],
    found: &mut Vec<u32>,
) -> Result<(), AllocError>
    ensures { IfOk result (λ _. found.new.items ≡ found.old.items ++ filter (has_step instance.now.fixed here) rest.now) }
{
    for city in rest {
        if instance.is_fixed(here, *city) {
            found.push(*city)?;
        }
    }
    Ok(())
}

/// Adds the cities of a list that have at most one pair.
fn add_ends(
    instance: &Instance,
    counts: &[usize],
    rest: &[u32],
    found: &mut Vec<u32>,
) -> Result<(), AllocError>
    requires size { length counts.now ≡ instance.now.n }
    requires counts { (c : ℕ) → c < instance.now.n → slice_index counts.now c ≡ count_at instance.now.fixed c }
    requires below { (j : ℕ) → j < length rest.now → slice_index rest.now j < instance.now.n }
    ensures { IfOk result (λ _. found.new.items ≡ found.old.items ++ filter (is_end instance.now.fixed) rest.now) }
{
    for city in rest {
        if counts[*city as usize] <= 1 {
            found.push(*city)?;
        }
    }
    Ok(())
}

/// Where the walk may go on from a city.
fn open_to(
    instance: &Instance,
    counts: &[usize],
    here: u32,
    rest: &[u32],
    found: &mut Vec<u32>,
) -> Result<(), AllocError>
    requires size { length counts.now ≡ instance.now.n }
    requires counts { (c : ℕ) → c < instance.now.n → slice_index counts.now c ≡ count_at instance.now.fixed c }
    requires below { (j : ℕ) → j < length rest.now → slice_index rest.now j < instance.now.n }
    ensures { IfOk result (λ _. found.new.items ≡ all_open instance.now here rest.now) }
{
    found.clear();
    add_partners(instance, here, rest, found)?;
    if found.is_empty() {
        add_ends(instance, counts, rest, found)?;
    }
    Ok(())
}

/// Where the walk goes on from a city. Without fixed pairs it may go to the whole rest.
fn next_city(
    instance: &Instance,
    counts: &[usize],
    here: u32,
    rest: &[u32],
    found: &mut Vec<u32>,
) -> Result<u32, AllocError>
    requires size { length counts.now ≡ instance.now.n }
    requires counts { (c : ℕ) → c < instance.now.n → slice_index counts.now c ≡ count_at instance.now.fixed c }
    requires here { here < instance.now.n }
    requires below { (j : ℕ) → j < length rest.now → slice_index rest.now j < instance.now.n }
    ensures next { IfOk result (λ city. city ≡ the_next instance.now here rest.now) }
    ensures city { IfOk result (λ city. city < instance.now.n) }
{
    if instance.fixed().is_empty() {
        return Ok(nearest_city(instance, here, rest));
    }
    open_to(instance, counts, here, rest, found)?;
    Ok(nearest_city(instance, here, found))
}

/// Where the walk begins.
fn start_city(instance: &Instance, counts: &[usize]) -> u32
    requires size { length counts.now ≡ instance.now.n }
    requires counts { (c : ℕ) → c < instance.now.n → slice_index counts.now c ≡ count_at instance.now.fixed c }
    ensures start { result ≡ the_start instance.now }
    ensures city { result < instance.now.n }
{
    for city in 0..instance.n() {
        if counts[city as usize] <= 1 {
            return city;
        }
    }
    0
}

/// Takes a city out of a list.
fn leave_out(rest: &mut Vec<u32>, city: u32)
    requires { AreDistinct rest.old.items }
    ensures { rest.new.items ≡ without city rest.old.items }
{
    for place in 0..rest.len() {
        if rest[place] == city {
            rest.remove(place);
            return;
        }
    }
}

/// All cities, in order.
fn all_cities(alloc: Global, n: u32) -> Result<Vec<u32>, AllocError>
    ensures { IfOk result (λ v. v.items ≡ range_with_len 0 n) }
{
    (0..n).collect(alloc)
}

/// The cities of the nearest-neighbour walk.
fn walk_cities(alloc: Global, instance: &Instance) -> Result<Vec<u32>, AllocError>
    ensures { IfOk result (λ v. v.items ≡ the_walk instance.now) }
{
    let n = instance.n();
    let counts = fixed_counts(alloc, instance)?;
    let mut here = start_city(instance, &counts);
    let mut rest = all_cities(alloc, n)?;
    leave_out(&mut rest, here);
    let mut found = Vec::new(alloc);
    let mut walk = Vec::with_capacity(alloc, n as usize)?;
    walk.push(here)?;
    for _step in 1..n {
        here = next_city(instance, &counts, here, &rest, &mut found)?;
        leave_out(&mut rest, here);
        walk.push(here)?;
    }
    Ok(walk)
}

/// The nearest-neighbour walk: from the lowest city with at most one fixed pair on each time to a fixed partner not visited yet,
/// else to the nearest city not visited yet that has at most one fixed pair, of equally near ones to that with the least number,
/// and home. Where the fixed pairs are a whole tour it is that tour, from city 0. Without fixed pairs it goes from city 0 to the
/// nearest city each time. It is a tour of the instance. O(n^2).
pub fn nearest_walk(alloc: Global, instance: &Instance) -> Result<Tour, AllocError>
    ensures walk { IfOk result (λ tour. tour ≡ the_walk instance.now) }
    ensures tour { IfOk result (λ tour. IsTourOf instance.now tour) }
{
    let walk = walk_cities(alloc, instance)?;
    match Tour::new(alloc, instance.n(), walk) {
        Ok(tour) => Ok(tour),
        Err(TourError::NoMemory) => Err(AllocError),
        Err(TourError::NotATour) => unreachable!(),
    }
}

/// Each instance has a tour: fixed pairs without a third at a city and without a cycle that leaves out a city are part of one. The
/// nearest-neighbour walk is one.
pub fn tours_exist()
    ensures { ToursExist }
{}
