//! The tests that a handle and pairs have to pass, each over all the pairs.
ghost use Rattle.std.specs.Prelude.{◌≡◌, ◌<◌, ◌↔◌, IsTrue, OnOk, IfErr};
ghost use Rattle.tspdef.specs.Sets.{has};
ghost use Rattle.tspdef.specs.Tours.{crosses};
ghost use Rattle.tspdef.specs.Fixed.{IsPairBefore, PairsRise, AreRisingPairs};
ghost use Rattle.tspdef.specs.Cuts.{IsOdd};
ghost use Rattle.cutform.specs.Odds.{ArePairs, AreApart, EachCrosses, IsOddDefect};

use crate::error::CutError;
use cyc::CitySet;

// How many pairs there are at most.
const MOST: usize = 4095;

// The first thing that is wrong with an odd cut.
#[tactic(auto, using(crate::proofs::OddLemmas::odd_from_parts))]
pub fn check(handle: &CitySet, pairs: &[(u32, u32)]) -> Result<(), CutError>
    ensures ok { OnOk result (IsOdd handle.now.n handle.now.cities pairs.now) }
    ensures refused { IfErr result (IsOddDefect handle.now.n handle.now.cities pairs.now) }
{
    if !handle.is_proper() {
        return Err(CutError::NotProper);
    }
    if pairs.len() % 2 == 0 {
        return Err(CutError::EvenTeeth);
    }
    if !are_apart(handle.n(), pairs) {
        return Err(CutError::NotRising);
    }
    if !each_crosses(handle, pairs) {
        return Err(CutError::PairInside);
    }
    if pairs.len() > MOST {
        return Err(CutError::TooMany);
    }
    Ok(())
}

// Whether the pairs are of two of n cities, the lower one first, and rise strictly.
fn are_apart(n: u32, pairs: &[(u32, u32)]) -> bool
    ensures { IsTrue result ↔ AreApart n pairs.now }
{
    are_pairs(n, pairs) && are_rising(pairs)
}

fn is_pair(n: u32, pair: (u32, u32)) -> bool
    ensures { IsTrue result ↔ ((pair.0 < pair.1) × (pair.1 < n)) }
{
    pair.0 < pair.1 && pair.1 < n
}

fn are_pairs(n: u32, pairs: &[(u32, u32)]) -> bool
    ensures { IsTrue result ↔ ArePairs n pairs.now }
{
    let mut rest = pairs;
    while let Some((pair, more)) = rest.split_first() {
        if !is_pair(n, *pair) {
            return false;
        }
        rest = more;
    }
    true
}

fn are_rising(pairs: &[(u32, u32)]) -> bool
    ensures { IsTrue result ↔ AreRisingPairs pairs.now }
{
    match pairs.split_first() {
        None => true,
        Some((first, rest)) => rise_behind(*first, rest),
    }
}

// Whether each pair comes behind the one before it, the first behind a given one.
fn rise_behind(first: (u32, u32), pairs: &[(u32, u32)]) -> bool
    ensures { IsTrue result ↔ PairsRise first pairs.now }
{
    let mut last = first;
    let mut rest = pairs;
    while let Some((pair, more)) = rest.split_first() {
        if !comes_before(last, *pair) {
            return false;
        }
        last = *pair;
        rest = more;
    }
    true
}

fn comes_before(pair: (u32, u32), other: (u32, u32)) -> bool
    ensures { IsTrue result ↔ IsPairBefore pair other }
{
    pair.0 < other.0 || (pair.0 == other.0 && pair.1 < other.1)
}

fn crosses(set: &CitySet, pair: (u32, u32)) -> bool
    ensures { result ≡ crosses (has set.now.cities) pair }
{
    set.contains(pair.0) != set.contains(pair.1)
}

// Whether each pair has exactly one end in the handle.
fn each_crosses(handle: &CitySet, pairs: &[(u32, u32)]) -> bool
    ensures { IsTrue result ↔ EachCrosses handle.now.cities pairs.now }
{
    let mut rest = pairs;
    while let Some((pair, more)) = rest.split_first() {
        if !crosses(handle, *pair) {
            return false;
        }
        rest = more;
    }
    true
}
