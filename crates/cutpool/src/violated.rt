//! Whether values violate a cut by enough.
ghost use Rattle.std.specs.Prelude.{◌≡◌, ℕ, ◌+◌, ◌<◌, nat_le, MatchOption, sum_by};
ghost use Rattle.tspdef.specs.Sets.{has};
ghost use Rattle.tspdef.specs.Cuts.{IsCut, pair_set};
ghost use Rattle.cutpool.specs.Pool.{misses};
ghost use Rattle.cutpool.specs.Nears.{AreRows, left_by, row_weight, set_weight};

use crate::nears::Row;
use cutform::Cut;
use cyc::{CitySet, Frac};

/// One length, in units.
const SCALE: u64 = 0x10_0000;

/// By how much a cut has to be violated, in units.
const WORTH: u64 = 0x400;

/// Whether the values violate a cut by 2^10 units or more.
pub fn is_violated(x: &Frac, rows: &[Row], cut: &Cut) -> bool
    requires rows { AreRows x.now.entries rows.now }
    requires cut { IsCut x.now.n cut.now }
    ensures { result ≡ misses x.now cut.now }
{
    let _entries = x.entries();
    let room = u64::from(cut.rhs()) * SCALE - WORTH;
    match without_sets(rows, cut.sets(), room) {
        Some(left) => are_within(rows, cut.pairs(), left),
        None => false,
    }
}

/// What is left of `room` without what crosses the sets, added up, where there is as much.
fn without_sets(rows: &[Row], sets: &[CitySet], room: u64) -> Option<u64>
    ensures { MatchOption result
        (room < sum_by (λ s. set_weight rows.now s.cities) sets.now)
        (λ left. left + sum_by (λ s. set_weight rows.now s.cities) sets.now ≡ room) }
{
    let mut left = room;
    for set in sets {
        match without_set(rows, set, left) {
            Some(rest) => left = rest,
            None => return None,
        }
    }
    Some(left)
}

/// Whether no more than `room` crosses the pairs, each as a set of two cities, added up.
fn are_within(rows: &[Row], pairs: &[(u32, u32)], room: u64) -> bool
    ensures { result ≡ nat_le (sum_by (λ p. set_weight rows.now (pair_set p)) pairs.now) room }
{
    without_pairs(rows, pairs, room).is_some()
}

/// What is left of `room` without what crosses the pairs, where there is as much.
fn without_pairs(rows: &[Row], pairs: &[(u32, u32)], room: u64) -> Option<u64>
    ensures { MatchOption result
        (room < sum_by (λ p. set_weight rows.now (pair_set p)) pairs.now)
        (λ left. left + sum_by (λ p. set_weight rows.now (pair_set p)) pairs.now ≡ room) }
{
    let mut left = room;
    for pair in pairs {
        match without_pair(rows, *pair, left) {
            Some(rest) => left = rest,
            None => return None,
        }
    }
    Some(left)
}

/// What is left of `room` without what crosses a pair as a set of two cities, where there is as much.
fn without_pair(rows: &[Row], pair: (u32, u32), room: u64) -> Option<u64>
    ensures { MatchOption result
        (room < set_weight rows.now (pair_set pair))
        (λ left. left + set_weight rows.now (pair_set pair) ≡ room) }
{
    match without_end(rows, pair.0, pair, room) {
        Some(left) => without_end(rows, pair.1, pair, left),
        None => None,
    }
}

/// What is left of `room` without the pairs of a city that leave a set of two cities, where there is as much.
fn without_end(rows: &[Row], city: u32, pair: (u32, u32), room: u64) -> Option<u64>
    ensures { MatchOption result
        (room < row_weight rows.now city (has (pair_set pair)))
        (λ left. left + row_weight rows.now city (has (pair_set pair)) ≡ room) }
{
    let Some(row) = rows.get(city as usize) else {
        return Some(room);
    };
    without_near(row, pair, room)
}

/// The same of a row.
#[inline]
fn without_near(row: &Row, pair: (u32, u32), room: u64) -> Option<u64>
    ensures { MatchOption result
        (room < sum_by (left_by (has (pair_set pair))) row.now)
        (λ left. left + sum_by (left_by (has (pair_set pair))) row.now ≡ room) }
{
    let mut left = room;
    for near in row.nears() {
        if near.city != pair.0 && near.city != pair.1 {
            let x = u64::from(near.x);
            if left < x {
                return None;
            }
            left -= x;
        }
    }
    Some(left)
}

/// What is left of `room` without what crosses a set, where there is as much.
fn without_set(rows: &[Row], set: &CitySet, room: u64) -> Option<u64>
    ensures { MatchOption result
        (room < set_weight rows.now set.now.cities)
        (λ left. left + set_weight rows.now set.now.cities ≡ room) }
{
    let mut left = room;
    for city in set.cities() {
        if let Some(row) = rows.get(*city as usize) {
            match without_row(row, set, left) {
                Some(rest) => left = rest,
                None => return None,
            }
        }
    }
    Some(left)
}

/// What is left of `room` without the pairs of a city that leave the set, where there is as much.
#[inline]
fn without_row(row: &Row, set: &CitySet, room: u64) -> Option<u64>
    ensures { MatchOption result
        (room < sum_by (left_by (has set.now.cities)) row.now)
        (λ left. left + sum_by (left_by (has set.now.cities)) row.now ≡ room) }
{
    let mut left = room;
    for near in row.nears() {
        if !set.contains(near.city) {
            let x = u64::from(near.x);
            if left < x {
                return None;
            }
            left -= x;
        }
    }
    Some(left)
}
