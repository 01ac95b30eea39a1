ghost use Rattle.std.specs.Prelude.{◌≤◌};

use crate::plain;
use cutform::Cut;
use cyc::{Entry, Frac};
use sepodd::{OddCut, OddCuts, SCALE, is_relaxed, least_odd, odd_cuts};
use std::alloc::{AllocError, Global};
use std::test::Fail;
use tspplain::drawn::next;

/// Values by pairs, with those of 0 left out.
fn values(alloc: Global, n: u32, list: &[(u32, u32, u32)]) -> Result<Frac, Fail>
    requires many { 3 ≤ n }
    requires few { n ≤ 2000 }
{
    let mut entries = Vec::new(alloc);
    for (u, v, x) in list {
        entries.push(Entry {
            u: *u,
            v: *v,
            x: *x,
        })?;
    }
    Ok(Frac::new(alloc, n, entries)?)
}

/// The least odd cut. Values that are not those of a relaxation fail.
fn least(alloc: Global, x: &Frac) -> Result<Option<OddCut>, AllocError> {
    if !is_relaxed(x) {
        return Err(AllocError);
    }
    least_odd(alloc, x)
}

/// What the search for odd cuts finds. Values that are not those of a relaxation fail.
fn found(alloc: Global, x: &Frac) -> Result<OddCuts, AllocError> {
    if !is_relaxed(x) {
        return Err(AllocError);
    }
    odd_cuts(alloc, x)
}

const HALF: u32 = SCALE / 2;

/// Two triangles of halves, and between them three pairs of one.
const PRISM: [(u32, u32, u32); 9] = [
    (0, 1, HALF),
    (0, 2, HALF),
    (1, 2, HALF),
    (3, 4, HALF),
    (3, 5, HALF),
    (4, 5, HALF),
    (0, 3, SCALE),
    (1, 4, SCALE),
    (2, 5, SCALE),
];

#[test]
fn the_odd_cut_of_a_prism(rt: HostRuntime) -> Result<(), Fail> {
    let x = values(rt.alloc(), 6, &PRISM)?;
    match least(rt.alloc(), &x)? {
        Some(odd) => {
            assert_eq!(rt; odd.weight, 0);
            assert_eq!(rt; odd.cut.sets()[0].cities(), [0, 1, 2].as_slice());
            assert_eq!(rt; odd.cut.pairs(), [(0, 3), (1, 4), (2, 5)].as_slice());
        }
        None => assert!(rt; false, "no odd cut"),
    }
    Ok(())
}

#[test]
fn the_odd_cut_of_a_prism_is_met(rt: HostRuntime) -> Result<(), Fail> {
    let x = values(rt.alloc(), 6, &PRISM)?;
    let cuts = found(rt.alloc(), &x)?;
    match &cuts.least {
        Some(odd) => assert!(rt; cuts.met.contains(&odd.cut)),
        None => assert!(rt; false, "no odd cut"),
    }
    Ok(())
}

#[test]
fn no_odd_cut_on_the_sides_of_a_square(rt: HostRuntime) -> Result<(), Fail> {
    let sides = [(0, 1, SCALE), (1, 2, SCALE), (2, 3, SCALE), (0, 3, SCALE)];
    let x = values(rt.alloc(), 4, &sides)?;
    assert!(rt; least(rt.alloc(), &x)?.is_none());
    Ok(())
}

/// The weight of an odd cut at some values, by its definition.
fn weight_of(x: &Frac, cut: &Cut) -> u64 {
    let mut weight = u64::from(SCALE).wrapping_mul(cut.pairs().len() as u64);
    for entry in x.entries() {
        for handle in cut.sets() {
            if handle.contains(entry.u) != handle.contains(entry.v) {
                weight = weight.wrapping_add(u64::from(entry.x));
            }
        }
        for (u, v) in cut.pairs() {
            if (*u == entry.u && *v == entry.v) || (*u == entry.v && *v == entry.u) {
                weight = weight.wrapping_sub(2 * u64::from(entry.x));
            }
        }
    }
    weight
}

/// Where a drawn table has the value of two cities.
fn cell(u: u32, v: u32) -> usize {
    u.min(v).wrapping_mul(9).wrapping_add(u.max(v)) as usize
}

/// A city of a drawn order.
fn city(order: &[u32], place: usize) -> u32 {
    order.get(place).copied().unwrap_or(0)
}

/// Puts the first `n` of nine cities into a drawn order.
fn shuffle(order: &mut [u32], n: u32, seed: u64) -> u64 {
    let mut state = seed;
    for k in 1..n as usize {
        state = next(state);
        let other = (state >> 33) as usize % (k + 1);
        if k < order.len() && other < order.len() {
            order.swap(k, other);
        }
    }
    state
}

/// Adds a value to each step of a drawn walk through all cities.
fn add_tour(table: &mut [u32], n: u32, seed: u64, x: u32) -> u64 {
    let mut order = [0u32, 1, 2, 3, 4, 5, 6, 7, 8];
    let state = shuffle(&mut order, n, seed);
    let mut last = city(&order, (n as usize).saturating_sub(1));
    for k in 0..n as usize {
        let here = city(&order, k);
        if let Some(value) = table.get_mut(cell(last, here)) {
            *value = value.wrapping_add(x);
        }
        last = here;
    }
    state
}

/// The mean of some drawn tours of 4 to 9 cities, some of whose values are then made less.
fn drawn(alloc: Global, number: u64) -> Result<Frac, Fail> {
    let mut state = next(next(number ^ 0x0dd));
    let n = 4 + (state >> 40) as u32 % 6;
    let tours = 2 + (state >> 50) as u32 % 4;
    let mut table = [0u32; 81];
    for _ in 0..tours {
        state = add_tour(&mut table, n, state, SCALE / tours);
    }
    let mut entries = Vec::new(alloc);
    for u in 0..n {
        for v in u + 1..n {
            state = next(state);
            let mut x = city(&table, cell(u, v));
            if number % 3 == 1 && state >> 62 == 0 {
                x = x.saturating_sub((state >> 44) as u32 & 0x3_ffff);
            }
            if number % 3 == 2 && state >> 61 == 0 {
                x = 0;
            }
            if x > 0 || state >> 60 == 1 {
                entries.push(if (state >> 30) & 1 == 0 {
                    Entry { u, v, x }
                } else {
                    Entry { u: v, v: u, x }
                })?;
            }
        }
    }
    Ok(Frac::new(alloc, n, entries)?)
}

#[test]
fn odd_cuts_are_the_least_of_a_plain_program(rt: HostRuntime) -> Result<(), Fail> {
    let alloc = rt.alloc();
    let mut many = 0u32;
    let mut none = 0u32;
    let mut positive = 0u32;
    for number in 0..500u64 {
        let x = drawn(alloc, number)?;
        assert!(rt; is_relaxed(&x), "at {number}");
        let expected = plain::least_weight(&x);
        match least(alloc, &x)? {
            Some(odd) => {
                many = many.wrapping_add(1);
                if odd.weight > 0 {
                    positive = positive.wrapping_add(1);
                }
                assert_eq!(rt; odd.weight, expected, "at {number}");
                assert_eq!(rt; weight_of(&x, &odd.cut), expected, "at {number}");
                assert!(rt; odd.cut.sets()[0].contains(0), "at {number}");
            }
            None => {
                none = none.wrapping_add(1);
                assert!(rt; expected >= u64::from(SCALE), "at {number}");
            }
        }
    }
    assert!(rt; many > 50, "only {many}");
    assert!(rt; none > 50, "only {none} without");
    assert!(rt; positive > 20, "only {positive} above 0");
    Ok(())
}

/// Whether each of some odd cuts lacks at least half as much to one length as a weight does.
fn are_light(x: &Frac, least: u64, cuts: &[Cut]) -> bool {
    let one = u64::from(SCALE);
    let mut light = true;
    for cut in cuts {
        let lacks = one.saturating_sub(weight_of(x, cut));
        light &= lacks.saturating_add(lacks) >= one.saturating_sub(least);
    }
    light
}

/// Whether each cut comes behind the one before it.
fn are_rising(cuts: &[Cut]) -> bool {
    for k in 1..cuts.len() {
        if cuts[k - 1] >= cuts[k] {
            return false;
        }
    }
    true
}

#[test]
fn met_cuts_lack_half_as_much_as_the_least(rt: HostRuntime) -> Result<(), Fail> {
    let alloc = rt.alloc();
    let mut several = 0u32;
    for number in 0..500u64 {
        let x = drawn(alloc, number)?;
        let cuts = found(alloc, &x)?;
        if cuts.met.len() > 1 {
            several = several.wrapping_add(1);
        }
        assert!(rt; are_rising(&cuts.met), "at {number}");
        match &cuts.least {
            Some(odd) => {
                assert!(rt; cuts.met.contains(&odd.cut), "at {number}");
                assert!(rt; are_light(&x, odd.weight, &cuts.met), "at {number}");
            }
            None => assert!(rt; cuts.met.is_empty(), "at {number}"),
        }
    }
    assert!(rt; several > 50, "only {several} with several");
    Ok(())
}
