use cyc::{CitySet, Entry, Frac};
use fracgraph::components;
use std::alloc::{AllocError, Global};
use std::test::Fail;

/// The next of some numbers that look drawn.
fn next(state: u64) -> u64 {
    state
        .wrapping_mul(6_364_136_223_846_793_005)
        .wrapping_add(1_442_695_040_888_963_407)
}

/// Values of 0 to 3 on some pairs of 3 to 12 cities.
fn drawn(alloc: Global, number: u64) -> Result<Frac, Fail> {
    let mut state = next(number ^ 0x5eed);
    let n = 3 + (state >> 40) as u32 % 10;
    let mut entries = Vec::new(alloc);
    for u in 0..n {
        for v in u + 1..n {
            state = next(state);
            if (state >> 40) & 7 < 2 {
                let x = (state >> 62) as u32;
                entries.push(if (state >> 50) & 1 == 0 {
                    Entry { u, v, x }
                } else {
                    Entry { u: v, v: u, x }
                })?;
            }
        }
    }
    Ok(Frac::new(alloc, n, entries)?)
}

fn bit(city: u32) -> u32 {
    1u32.checked_shl(city).unwrap_or(0)
}

/// The cities that walks reach from a city, as bits.
fn reached(x: &Frac, low: u32, high: u32, from: u32) -> u32 {
    let mut bits = bit(from);
    for _ in 0..x.n() {
        for entry in x.entries() {
            if low < entry.x && entry.x < high {
                let both = bit(entry.u) | bit(entry.v);
                if bits & both != 0 {
                    bits |= both;
                }
            }
        }
    }
    bits
}

/// The components as bits, in order of their least city.
fn plain(alloc: Global, x: &Frac, low: u32, high: u32) -> Result<Vec<u32>, AllocError> {
    let mut sets = Vec::new(alloc);
    for city in 0..x.n() {
        let bits = reached(x, low, high, city);
        if bits != bit(city) && bits & bit(city).saturating_sub(1) == 0 {
            sets.push(bits)?;
        }
    }
    Ok(sets)
}

fn bits_of(alloc: Global, sets: &[CitySet]) -> Result<Vec<u32>, AllocError> {
    let mut all = Vec::new(alloc);
    for set in sets {
        let mut bits = 0;
        for city in set.cities() {
            bits |= bit(*city);
        }
        all.push(bits)?;
    }
    Ok(all)
}

#[test]
fn components_are_what_walks_reach(rt: HostRuntime) -> Result<(), Fail> {
    let alloc = rt.alloc();
    for number in 0..400u64 {
        let x = drawn(alloc, number)?;
        for (low, high) in [(0, 2), (0, 3), (1, 4), (0, 1)] {
            let sets = components(alloc, &x, low, high)?;
            let expected = plain(alloc, &x, low, high)?;
            assert!(rt; bits_of(alloc, &sets)? == expected, "at {number}");
        }
    }
    Ok(())
}

#[test]
fn two_triangles_are_two_components(rt: HostRuntime) -> Result<(), Fail> {
    let alloc = rt.alloc();
    let half = 0x8_0000;
    let mut entries = Vec::new(alloc);
    for (u, v) in [(3u32, 4u32), (5, 3), (4, 5), (0, 1), (2, 0), (1, 2)] {
        entries.push(Entry { u, v, x: half })?;
    }
    for u in 0..3u32 {
        entries.push(Entry {
            u,
            v: u + 3,
            x: 0x10_0000,
        })?;
    }
    let x = Frac::new(alloc, 6, entries)?;
    let sets = components(alloc, &x, 0x400, 0x10_0000 - 0x400)?;
    assert_eq!(rt; sets.len(), 2);
    assert_eq!(rt; sets[0].cities(), [0, 1, 2].as_slice());
    assert_eq!(rt; sets[1].cities(), [3, 4, 5].as_slice());
    Ok(())
}
