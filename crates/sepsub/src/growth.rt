//! The least side without city 0, by flows into a growing set of cities.
//!
//! The stops are the cities that are done, at first city 0 alone. A flow runs from the next city to the stops, and ends at
//! the least set that holds the city and no stop; then the city is a stop too. Each set without city 0 is met at the first
//! of its cities that is taken, so the best of the sides is the least of all. A flow is given up once it is neither better
//! than the best so far nor below a reach: with [`LIGHT`] every light side is found, with 0 only what is better. The next city is the one of the greatest value to the stops, as in the orders of Nagamochi
//! and Ibaraki 1992 and Stoer and Wagner 1997: its flow is short. Nothing but speed rests on that choice.
ghost use Rattle.std.specs.Prelude.{◌≡◌, ◌≢◌, ◌<◌, ◌≤◌, ℕ, true, false, length, slice_set, IfOk, MatchOption};
ghost use Rattle.maxflow.specs.Flows.{is_stop};
ghost use Rattle.sepsub.specs.Growth.{IsFound, IsFoundOfAll, with_light};

use crate::{LIGHT, sides};
use cyc::CitySet;
use maxflow::{LeastSide, Network};
use std::alloc::{AllocError, Global};

/// The best side so far, and the light ones. None of them holds city 0.
#[derive(Drop)]
pub struct Found {
    pub best: LeastSide,
    pub sets: Vec<CitySet>,
}

/// The least side of all that do not hold city 0, and light ones. A flow is given up where it is neither better than the best
/// so far nor below `reach`.
pub fn grown(alloc: Global, network: &Network, reach: u64) -> Result<Found, AllocError>
    ensures { IfOk result (λ f. IsFoundOfAll network.now f) }
{
    let n = network.n();
    let mut stops = sides::no_marks(alloc, n)?;
    let mut keys = vec![in alloc; 0; n as usize]?;
    stops[0] = true;
    let mut found = first_found(alloc, network, &stops)?;
    stops[1] = true;
    network.add_values(0, &mut keys);
    network.add_values(1, &mut keys);
    while let Some(t) = choose(&stops, &keys) {
        found = next_found(alloc, network, t, &stops, found, reach)?;
        stops[t as usize] = true;
        network.add_values(t, &mut keys);
    }
    Ok(found)
}

/// What is found from city 1, where city 0 is the only stop.
fn first_found(alloc: Global, network: &Network, stops: &[bool]) -> Result<Found, AllocError>
    requires all { length stops.now ≡ network.now.n }
    requires home { is_stop stops.now 0 ≡ true }
    requires others { (k : ℕ) → k ≢ 0 → is_stop stops.now k ≡ false }
    ensures { IfOk result (λ f. IsFound network.now (slice_set stops.now 1 true) f) }
{
    let _n = network.n();
    let best = network.flow(alloc, 1, stops)?;
    let sets = kept(alloc, Vec::new(alloc), &best)?;
    Ok(Found { best, sets })
}

/// What is found with one stop more.
fn next_found(
    alloc: Global,
    network: &Network,
    t: u32,
    stops: &[bool],
    found: Found,
    reach: u64,
) -> Result<Found, AllocError>
    requires inside { t < network.now.n }
    requires all { length stops.now ≡ network.now.n }
    requires free { is_stop stops.now t ≡ false }
    requires home { is_stop stops.now 0 ≡ true }
    requires so_far { IsFound network.now stops.now found }
    ensures { IfOk result (λ f. IsFound network.now (slice_set stops.now t true) f) }
{
    match network.flow_below(alloc, t, stops, found.best.value.max(reach))? {
        Some(side) => {
            let sets = kept(alloc, found.sets, &side)?;
            if side.value < found.best.value {
                return Ok(Found { best: side, sets });
            }
            Ok(Found {
                best: found.best,
                sets,
            })
        }
        None => Ok(found),
    }
}

/// The sets, and the side too where it is light.
fn kept(alloc: Global, mut sets: Vec<CitySet>, side: &LeastSide) -> Result<Vec<CitySet>, AllocError>
    ensures { IfOk result (λ v. v.items ≡ with_light sets.items side.now) }
{
    if side.value < LIGHT {
        sets.push(side.side.copy(alloc)?)?;
    }
    Ok(sets)
}

/// The city with the greatest key that is no stop, or any city.
fn preferred(stops: &[bool], keys: &[u64]) -> usize {
    let mut best = 0;
    let mut most: u64 = 0;
    for (k, key) in keys.iter().enumerate() {
        if *key > most && stops.get(k) == Some(&false) {
            best = k;
            most = *key;
        }
    }
    best
}

/// A city that is no stop, if there is one: that with the greatest key.
fn choose(stops: &[bool], keys: &[u64]) -> Option<u32>
    requires { length stops.now < 65536 }
    ensures { MatchOption result
        ((k : ℕ) → k < length stops.now → is_stop stops.now k ≡ true)
        (λ t. (t < length stops.now) × (is_stop stops.now t ≡ false)) }
{
    let best = preferred(stops, keys);
    if best < stops.len() && !stops[best] {
        return Some(best as u32);
    }
    for k in 0..stops.len() {
        if !stops[k] {
            return Some(k as u32);
        }
    }
    None
}
