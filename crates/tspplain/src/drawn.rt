//! Values on pairs of cities that look drawn: what separators are tried on. Equal numbers give equal values.

ghost use Rattle.std.specs.Prelude.{◌≡◌, ◌+◌, ◌*◌, ◌%◌, ◌^◌, ◌≤◌, IfOk};

use crate::bits::{bit, parts};
use cyc::{Entry, Frac, FracError};
use std::alloc::{AllocError, Global};

/// One length in units.
const ONE: u32 = 0x10_0000;

/// The least value near one length.
const NEAR: u32 = ONE - 0x400;

/// The next of some numbers that look drawn.
pub fn next(state: u64) -> u64
    ensures { result ≡ (state * 6364136223846793005 + 1442695040888963407) % 2 ^ 64 }
{
    state
        .wrapping_mul(6_364_136_223_846_793_005)
        .wrapping_add(1_442_695_040_888_963_407)
}

/// A value of one of several kinds: few ties, many ties and zeros, or as in a relaxation.
fn loose_value(kind: u64, word: u64) -> u32 {
    match kind {
        0 => (word >> 35) as u32,
        1 => (word >> 62) as u32,
        _ => (word >> 62) as u32 * 0x4_0000,
    }
}

/// Values on some pairs of `n` cities; where `parted`, none between even and odd cities.
fn loose_entries(
    alloc: Global,
    n: u32,
    kind: u64,
    parted: bool,
    seed: u64,
) -> Result<Vec<Entry>, AllocError> {
    let mut entries = Vec::new(alloc);
    let mut state = seed;
    for u in 0..n {
        for v in u + 1..n {
            state = next(state);
            let apart = parted && (u ^ v) & 1 == 1;
            if (state >> 40) & 3 < 2 + (kind & 1) && !apart {
                let x = loose_value(kind, next(state)).min(0x4000_0000);
                entries.push(if state >> 63 == 0 {
                    Entry { u, v, x }
                } else {
                    Entry { u: v, v: u, x }
                })?;
            }
        }
    }
    Ok(entries)
}

/// Values on some pairs of 3 to 10 cities: zeros, ties, and now and then two parts that no pair joins.
pub fn loose_values(alloc: Global, number: u64) -> Result<Frac, FracError>
    ensures { IfOk result (λ x. (3 ≤ x.n) × (x.n ≤ 10)) }
{
    let seed = next(number ^ 0x5eed);
    let n = 3 + (seed >> 40) as u32 % 8;
    let entries = loose_entries(alloc, n, number % 3, number % 4 == 1, seed)?;
    Frac::new(alloc, n, entries)
}

/// A value within one of two sides, or across, where the pair may be one of a matching: about the limits of blossoms.
fn blossom_value(word: u64, across: bool, matched: bool) -> u32 {
    match (across, matched, word >> 62) {
        (false, _, 0) => 0x4_0000,
        (false, _, 1) => 0x8_0000,
        (false, _, _) => 0,
        (true, true, _) => match (word >> 56) & 31 {
            0 => NEAR,
            1 => NEAR - 1,
            _ => ONE - ((word >> 40) & 0x3ff) as u32,
        },
        (true, false, _) if (word >> 44) & 31 == 0 => 0x4_0000,
        (true, false, _) => ((word >> 45) & 0x3ff) as u32,
    }
}

/// The same about the limits of combs.
fn comb_value(word: u64, across: bool, matched: bool) -> u32 {
    match (across, matched, word >> 61) {
        (false, _, 0 | 1) => 0x8_0000,
        (false, _, 2) => 0x5_0000,
        (false, _, 3) => 0xd_0000,
        (true, true, 0) => 0x9_0000,
        (true, true, 1) => 0x8_0000,
        (true, true, _) => ONE - ((word >> 40) & 0x3ff) as u32,
        (true, false, 5) => ((word >> 45) & 0x3ff) as u32,
        _ => 0,
    }
}

/// Values on the pairs of `n` cities on two sides, that of the mask and the other: in the middle within a side, a matching near
/// one length across; for combs, some pairs near one length within the second side too.
fn two_sided_entries(
    alloc: Global,
    n: u32,
    side: u32,
    seed: u64,
    for_combs: bool,
) -> Result<Vec<Entry>, AllocError> {
    let mut state = seed;
    let mut met = 0;
    let mut entries = Vec::new(alloc);
    for u in 0..n {
        for v in u + 1..n {
            state = next(state);
            let pair = bit(u) | bit(v);
            let across = parts(side, pair);
            let matched = across && met & pair == 0 && (state >> 50) & 3 != 0;
            if matched {
                met |= pair;
            }
            let x = if !for_combs {
                blossom_value(state, across, matched)
            } else if side & pair == 0 && (state >> 30) & 3 == 0 {
                NEAR
            } else {
                comb_value(state, across, matched)
            };
            if x != 0 {
                entries.push(if for_combs && (state >> 20) & 1 == 1 {
                    Entry { u: v, v: u, x }
                } else {
                    Entry { u, v, x }
                })?;
            }
        }
    }
    Ok(entries)
}

/// How many cities, from 6 to 12.
fn six_to_twelve(word: u64) -> u32
    ensures many { 6 ≤ result }
    ensures few { result ≤ 12 }
{
    6 + (word >> 40) as u32 % 7
}

/// Values on the pairs of 6 to 12 cities, many of which have blossoms.
pub fn blossom_values(alloc: Global, number: u64) -> Result<Frac, FracError>
    ensures { IfOk result (λ x. (6 ≤ x.n) × (x.n ≤ 12)) }
{
    let seed = next(next(number ^ 0x5eed));
    let n = six_to_twelve(seed);
    let entries = two_sided_entries(alloc, n, (seed >> 33) as u32, seed, false)?;
    Frac::new(alloc, n, entries)
}

/// Values on the pairs of 6 to 12 cities, many of which have combs, some with teeth that grow.
pub fn comb_values(alloc: Global, number: u64) -> Result<Frac, FracError>
    ensures { IfOk result (λ x. (6 ≤ x.n) × (x.n ≤ 12)) }
{
    let seed = next(next(number ^ 0x5eed));
    let n = six_to_twelve(seed);
    let entries = two_sided_entries(alloc, n, (seed >> 33) as u32 | 7, seed, true)?;
    Frac::new(alloc, n, entries)
}
