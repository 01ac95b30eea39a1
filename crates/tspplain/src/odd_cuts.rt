//! Odd cuts: a handle and pairs that cross it.

ghost use Rattle.std.specs.Prelude.{◌≡◌, ◌<◌, ◌≤◌, ◌↔◌, IsTrue, true, length, map};
ghost use Rattle.std.specs.List.{AllByRecursion};
ghost use Rattle.tspdef.specs.Sets.{has};
ghost use Rattle.tspdef.specs.Tours as tours;
ghost use Rattle.tspdef.specs.Fixed as fixed;
ghost use Rattle.tspdef.specs.Cuts as defs;

use crate::sets::is_proper;
use crate::tours::crosses;

/// How many pairs an odd cut has at most.
const PAIRS: usize = 4095;

/// How many of the pairs, each a set of two cities, have exactly one of two cities.
pub fn pairs_coefficient(pairs: &[(u32, u32)], u: u32, v: u32) -> u128
    ensures value { result ≡ defs.coefficient (map defs.pair_set pairs.now) u v }
    ensures bound { result ≤ length pairs.now }
{
    match pairs.split_first() {
        None => 0,
        Some((pair, rest)) => {
            let set = [pair.0, pair.1];
            u128::from(crosses(&set, u, v)) + pairs_coefficient(rest, u, v)
        }
    }
}

/// Whether each pair is of two different cities below `n`, the lesser first.
fn are_below(n: u32, pairs: &[(u32, u32)]) -> bool
    ensures { IsTrue result ↔ AllByRecursion (λ p. (p.0 < p.1) × (p.1 < n)) pairs.now }
{
    match pairs.split_first() {
        None => true,
        Some((pair, rest)) => pair.0 < pair.1 && pair.1 < n && are_below(n, rest),
    }
}

/// Whether the second pair comes behind the first.
fn is_before(p: (u32, u32), q: (u32, u32)) -> bool
    ensures { IsTrue result ↔ fixed.IsPairBefore p q }
{
    p.0 < q.0 || p.0 == q.0 && p.1 < q.1
}

/// Whether pairs rise strictly behind one.
fn rise_behind(pair: (u32, u32), pairs: &[(u32, u32)]) -> bool
    ensures { IsTrue result ↔ fixed.PairsRise pair pairs.now }
{
    match pairs.split_first() {
        None => true,
        Some((next, rest)) => is_before(pair, *next) && rise_behind(*next, rest),
    }
}

/// Whether pairs rise strictly.
fn are_rising(pairs: &[(u32, u32)]) -> bool
    ensures { IsTrue result ↔ fixed.AreRisingPairs pairs.now }
{
    match pairs.split_first() {
        None => true,
        Some((pair, rest)) => rise_behind(*pair, rest),
    }
}

/// Whether each pair has one end in the handle.
fn each_crosses(handle: &[u32], pairs: &[(u32, u32)]) -> bool
    ensures { IsTrue result ↔ AllByRecursion (λ p. tours.crosses (has handle.now) p ≡ true) pairs.now }
{
    match pairs.split_first() {
        None => true,
        Some((pair, rest)) => crosses(handle, pair.0, pair.1) && each_crosses(handle, rest),
    }
}

/// Whether the handle is proper and the pairs are an odd number of different ones, each with one end in it.
pub fn is_odd(n: u32, handle: &[u32], pairs: &[(u32, u32)]) -> bool
    ensures { IsTrue result ↔ defs.IsOdd n handle.now pairs.now }
{
    is_proper(n, handle)
        && pairs.len() % 2 == 1
        && pairs.len() <= PAIRS
        && are_below(n, pairs)
        && are_rising(pairs)
        && each_crosses(handle, pairs)
}
