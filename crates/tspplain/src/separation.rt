//! Cuts that values on pairs of cities violate, by going through all sets or along all pairs, over bits.
//!
//! Proved are what crosses a set, the least that crosses a set of a kind, and by how much values miss a comb. Of the blossoms and
//! combs it is proved that each is missed, and not which are found: a contract for that would be the one of the separators that
//! tests compare with them (`sepblos`, `sepcomb`), and a program that shares no line with them is what the comparison is worth.

ghost use Rattle.std.specs.Prelude.{◌≡◌, ℕ, ◌+◌, ◌-◌, ◌*◌, ◌^◌, ◌<◌, ◌≤◌, ◌↔◌, length, sum_by, pos, IfOk, IsTrue};
ghost use Rattle.std.specs.List.{All};
ghost use Rattle.cyc.specs.Frac.{AreEntries};
ghost use Rattle.tspplain.specs.Bits.{bit_of};
ghost use Rattle.tspplain.specs.Crossings.{crossing_of, crossing_weight, IsLeastCrossing, IsBetween, missed_of, IsMissedComb};

use crate::bits::{bit, parts};
use cyc::Frac;
use std::alloc::{AllocError, Global};

/// One length in units.
const ONE: u32 = 0x10_0000;

/// The least value near one length.
const NEAR: u32 = ONE - 0x400;

/// The sum of the values that cross the set.
pub fn crossing(x: &Frac, set: u32) -> u64
    ensures value { result ≡ crossing_of x.now.entries set }
    ensures pairs { x.now.n ≤ 32 → pos result ≡ crossing_weight x.now set }
    ensures small { result ≤ 2 ^ 40 }
{
    let mut sum: u64 = 0;
    for entry in x.entries() {
        if parts(set, bit(entry.u) | bit(entry.v)) {
            sum = sum.wrapping_add(u64::from(entry.x));
        }
    }
    sum
}

/// The least crossing weight of the sets that hold all of one set and none of another.
pub fn least_between(x: &Frac, all: u32, none: u32) -> u64
    ensures { IsLeastCrossing x.now.entries (bit_of x.now.n) (IsBetween all none) result }
{
    let mut least = u64::MAX;
    for set in 0..bit(x.n()) {
        if set & all == all && set & none == 0 {
            least = least.min(crossing(x, set));
        }
    }
    least
}

/// The least crossing weight of all proper sets: of those without the last city, as their complements have the same.
pub fn least_of_all(x: &Frac) -> u64
    ensures tried { IsLeastCrossing x.now.entries (bit_of (x.now.n - 1)) (λ set. 0 < set) result }
    ensures proper { AreEntries x.now.n x.now.entries → x.now.n ≤ 32 → (set : ℕ) → 0 < set → set + 1 < 2 ^ x.now.n → result ≤ crossing_of x.now.entries set }
{
    let mut least = u64::MAX;
    for set in 1..bit(x.n().saturating_sub(1)) {
        least = least.min(crossing(x, set));
    }
    least
}

/// The cities that walks over pairs above a limit and below those near one length reach from a city.
fn reached(x: &Frac, limit: u32, from: u32) -> u32 {
    let mut set = bit(from);
    for _ in 0..x.n() {
        for entry in x.entries() {
            let pair = bit(entry.u) | bit(entry.v);
            if set & pair != 0 && entry.x > limit && entry.x < NEAR {
                set |= pair;
            }
        }
    }
    set
}

/// Whether the city is the least of the set.
fn is_least(set: u32, city: u32) -> bool {
    set & bit(city).saturating_sub(1) == 0
}

/// By how much the values miss the comb of a handle and the teeth after it; 0 where they do not.
pub fn missed(x: &Frac, sets: &[u32]) -> u64
    ensures value { result ≡ missed_of x.now.entries sets.now }
    ensures plain { 0 < length sets.now → length sets.now ≤ 2 ^ 20 → result ≡ (3 * length sets.now - 2) * 2 ^ 20 - sum_by (crossing_of x.now.entries) sets.now }
{
    let mut sum = 0u64;
    for set in sets {
        sum = sum.wrapping_add(crossing(x, *set));
    }
    (sets.len() as u64)
        .wrapping_mul(3)
        .wrapping_sub(2)
        .wrapping_mul(u64::from(ONE))
        .saturating_sub(sum)
}

/// Whether the sets are a handle and an odd number of teeth, three or more, and the values miss their comb by 2^10 units or more.
fn is_missed_comb(x: &Frac, sets: &[u32]) -> bool
    ensures { IsTrue result ↔ IsMissedComb x.now.entries sets.now }
{
    sets.len() >= 4 && sets.len() % 2 == 0 && missed(x, sets) >= 0x400
}

/// A handle and the pairs near one length that leave it, where no two of those meet.
fn blossom(alloc: Global, x: &Frac, handle: u32) -> Result<Option<Vec<u32>>, AllocError> {
    let mut met = 0;
    let mut sets = vec![in alloc; handle]?;
    for entry in x.entries() {
        let pair = bit(entry.u) | bit(entry.v);
        if entry.x >= NEAR && parts(handle, pair) {
            if met & pair != 0 {
                return Ok(None);
            }
            met |= pair;
            sets.push(pair)?;
        }
    }
    Ok(Some(sets))
}

/// The sets of the violated blossoms, each its handle first.
pub fn blossoms(alloc: Global, x: &Frac) -> Result<Vec<Vec<u32>>, AllocError>
    ensures { IfOk result (λ found. All (λ sets. IsMissedComb x.now.entries sets.items) found.items) }
{
    let mut found = Vec::new(alloc);
    for city in 0..x.n() {
        let handle = reached(x, 0x400, city);
        if handle != bit(city) && is_least(handle, city) {
            if let Some(sets) = blossom(alloc, x, handle)? {
                if is_missed_comb(x, &sets) {
                    found.push(sets)?;
                }
            }
        }
    }
    Ok(found)
}

/// The pair of the greatest value, and then of the lowest cities, that leaves the handle and meets no tooth; and its city
/// outside.
fn heaviest(x: &Frac, handle: u32, met: u32) -> Option<(u32, u32)> {
    let mut best = None;
    let mut most = 0x7_ffff;
    for u in 0..x.n() {
        for v in u + 1..x.n() {
            let pair = bit(u) | bit(v);
            if parts(handle, pair) && met & pair == 0 && x.x(u, v) > most {
                most = x.x(u, v);
                best = Some(if handle & bit(u) != 0 {
                    (pair, v)
                } else {
                    (pair, u)
                });
            }
        }
    }
    best
}

/// The teeth of a handle as they begin, each with its city outside the handle; those are an odd number.
fn begun(alloc: Global, x: &Frac, handle: u32) -> Result<Vec<(u32, u32)>, AllocError> {
    let mut teeth = Vec::new(alloc);
    let mut met = 0;
    for _ in 0..x.n() {
        if let Some((pair, end)) = heaviest(x, handle, met) {
            met |= pair;
            teeth.push((pair, end))?;
        }
    }
    if teeth.len() % 2 == 0 {
        let _last = teeth.pop();
    }
    Ok(teeth)
}

/// The lowest city near another that is not met.
fn near_one(x: &Frac, city: u32, met: u32) -> Option<u32> {
    for other in 0..x.n() {
        if city < x.n() && met & bit(other) == 0 && x.x(city, other) >= NEAR {
            return Some(other);
        }
    }
    None
}

/// A handle and its teeth: each tooth grows by the lowest city near the newest, as long as there is one.
fn comb(alloc: Global, x: &Frac, handle: u32) -> Result<Vec<u32>, AllocError> {
    let teeth = begun(alloc, x, handle)?;
    let mut met = handle;
    for (pair, _) in &teeth {
        met |= *pair;
    }
    let mut sets = vec![in alloc; handle]?;
    for (pair, end) in &teeth {
        let mut tooth = *pair;
        let mut newest = *end;
        for _ in 0..x.n() {
            if let Some(city) = near_one(x, newest, met) {
                met |= bit(city);
                tooth |= bit(city);
                newest = city;
            }
        }
        sets.push(tooth)?;
    }
    Ok(sets)
}

/// The sets of the violated combs, each its handle first.
pub fn combs(alloc: Global, x: &Frac) -> Result<Vec<Vec<u32>>, AllocError>
    ensures { IfOk result (λ found. All (λ sets. IsMissedComb x.now.entries sets.items) found.items) }
{
    let mut found = Vec::new(alloc);
    for limit in [0x4_0000, 0x8_0000, 0xc_0000] {
        for city in 0..x.n() {
            let handle = reached(x, limit, city);
            if handle.count_ones() >= 3 && is_least(handle, city) {
                let sets = comb(alloc, x, handle)?;
                if is_missed_comb(x, &sets) {
                    found.push(sets)?;
                }
            }
        }
    }
    Ok(found)
}
