//! The walk from city 0 along the two neighbours of each city.
ghost use Rattle.std.specs.Prelude.{◌≡◌, ℕ, ◌<◌, ◌≤◌, List, length, min, IfOk, IfSome, IfNone, MatchOption};
ghost use Rattle.tspdef.specs.Tours.{IsTour};
ghost use Rattle.pathtour.specs.Neighbours.{two_at};
ghost use Rattle.pathtour.specs.Rounds.{other_of, IsRound, AreWithin};

use cyc::{Tour, TourError};
use std::alloc::{AllocError, Global};

/// The tour that the walk is, if it is one.
pub fn round_along(alloc: Global, n: u32, pairs: &[(u32, u32)]) -> Result<Option<Tour>, AllocError>
    requires many { 3 ≤ n }
    requires few { n ≤ 2000 }
    requires long { length pairs.now ≡ n }
    requires within { AreWithin pairs.now }
    ensures found { IfOk result (λ r. IfSome r (λ tour. IsTour n tour × IsRound pairs.now tour)) }
    ensures none { IfOk result (λ r. IfNone r ((tour : List ℕ) → IsTour n tour → ¬ IsRound pairs.now tour)) }
{
    let Some(cities) = walk(alloc, n, pairs)? else {
        return Ok(None);
    };
    match Tour::new(alloc, n, cities) {
        Ok(tour) => Ok(Some(tour)),
        Err(TourError::NotATour) => Ok(None),
        Err(TourError::NoMemory) => Err(AllocError),
    }
}

/// The cities of n steps from city 0, the first of them to its lower neighbour, if the last of them leads home.
fn walk(alloc: Global, n: u32, pairs: &[(u32, u32)]) -> Result<Option<Vec<u32>>, AllocError>
    requires some { 1 ≤ n }
    requires long { length pairs.now ≡ n }
    requires within { AreWithin pairs.now }
    ensures { IfOk result (λ r. MatchOption r ((tour : List ℕ) → length tour ≡ n → ¬ IsRound pairs.now tour)
        (λ cities. (length cities.items ≡ n) × IsRound pairs.now cities.items)) }
{
    let mut cities = Vec::with_capacity(alloc, n as usize)?;
    cities.push(0)?;
    let mut from = 0;
    let mut to = lower(pairs[0]);
    for _ in 1..n {
        cities.push(to)?;
        let next = other(pairs[to as usize], from);
        from = to;
        to = next;
    }
    Ok(if to == 0 { Some(cities) } else { None })
}

fn lower(pair: (u32, u32)) -> u32
    ensures { result ≡ min pair.0 pair.1 }
{
    pair.0.min(pair.1)
}

/// The neighbour that is not this one.
fn other(pair: (u32, u32), from: u32) -> u32
    ensures { result ≡ other_of pair from }
{
    if pair.0 == from { pair.1 } else { pair.0 }
}
