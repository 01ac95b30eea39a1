use cyc::{Entry, Frac};
use sepsub::{LIGHT, least_set, sweep};
use std::alloc::Global;
use std::test::Fail;
use tspplain::bits::bits_of;
use tspplain::drawn::loose_values;
use tspplain::separation::{crossing, least_of_all};

/// One length in units.
const ONE: u32 = 0x10_0000;

/// Pairs of one value each.
fn pairs(alloc: Global, n: u32, list: &[(u32, u32, u32)]) -> Result<Frac, Fail> {
    if n < 3 || n > 2000 {
        return Err("a bad number of cities".into());
    }
    let mut entries = Vec::new(alloc);
    for (u, v, x) in list {
        entries.push(Entry {
            u: *u,
            v: *v,
            x: *x,
        })?;
    }
    Ok(Frac::new(alloc, n, entries)?)
}

#[test]
fn a_triangle_has_a_least_set(rt: HostRuntime) -> Result<(), Fail> {
    let x = pairs(rt.alloc(), 3, &[(0, 1, 3), (0, 2, 1), (1, 2, 2)])?;
    let least = least_set(rt.alloc(), &x)?;
    assert_eq!(rt; least.weight, 3);
    assert_eq!(rt; least.set.cities(), [0, 1].as_slice());
    Ok(())
}

#[test]
fn the_least_set_is_the_least_of_all(rt: HostRuntime) -> Result<(), Fail> {
    for number in 0..500u64 {
        let x = loose_values(rt.alloc(), number)?;
        let swept = sweep(rt.alloc(), &x)?;
        let weight = swept.least.weight;
        assert_eq!(rt; weight, least_of_all(&x), "at {number}");
        let set = bits_of(&swept.least.set);
        assert!(rt; swept.least.set.is_proper() && set & 1 == 1, "at {number}");
        assert_eq!(rt; crossing(&x, set), weight, "at {number}");
        assert_eq!(rt; swept.sets.is_empty(), weight >= LIGHT, "at {number}");
        for light in &swept.sets {
            assert!(rt;
                light.is_proper() && crossing(&x, bits_of(light)) < LIGHT,
                "at {number}"
            );
        }
        let alone = least_set(rt.alloc(), &x)?;
        assert_eq!(rt; alone.weight, weight, "at {number}");
    }
    Ok(())
}

/// Triangles of whole pairs: the sets are two of them, and that of city 0 is the least.
#[test]
fn components_come_first(rt: HostRuntime) -> Result<(), Fail> {
    let mut list = Vec::new(rt.alloc());
    for u in 0..9u32 {
        list.push((u, (u + 3) % 9, ONE))?;
    }
    list.push((1, 2, 0))?;
    let x = pairs(rt.alloc(), 9, &list)?;
    let swept = sweep(rt.alloc(), &x)?;
    assert_eq!(rt; swept.least.weight, 0);
    assert_eq!(rt; swept.least.set.cities(), [0, 3, 6].as_slice());
    assert_eq!(rt; swept.sets.len(), 2);
    assert_eq!(rt; swept.sets[0].cities(), [1, 4, 7].as_slice());
    assert_eq!(rt; swept.sets[1].cities(), [0, 3, 6].as_slice());
    Ok(())
}

/// A ring of triangles whose neighbours are joined by three quarters: each triangle is light.
#[test]
fn many_sets_are_found_at_once(rt: HostRuntime) -> Result<(), Fail> {
    let mut list = Vec::new(rt.alloc());
    for k in 0..20u32 {
        let a = k * 3;
        list.push((a, a + 1, ONE))?;
        list.push((a, a + 2, ONE / 2))?;
        list.push((a + 1, a + 2, ONE))?;
        list.push((a + 2, (a + 3) % 60, ONE / 4 * 3))?;
    }
    let x = pairs(rt.alloc(), 60, &list)?;
    let swept = sweep(rt.alloc(), &x)?;
    assert_eq!(rt; swept.least.weight, u64::from(ONE / 2 * 3));
    assert!(rt; swept.sets.len() >= 19);
    let mut triangles: u32 = 0;
    for set in &swept.sets {
        if set.cities().len() == 3 {
            triangles = triangles.saturating_add(1);
        }
    }
    assert!(rt; triangles >= 15);
    Ok(())
}

/// The limit itself is not light.
#[test]
fn a_set_at_the_limit_is_no_cut(rt: HostRuntime) -> Result<(), Fail> {
    let limit = 2 * ONE - 0x400;
    let at = pairs(
        rt.alloc(),
        3,
        &[(0, 1, limit / 2), (0, 2, limit / 2), (1, 2, limit / 2)],
    )?;
    assert!(rt; sweep(rt.alloc(), &at)?.sets.is_empty());
    let below = pairs(
        rt.alloc(),
        3,
        &[(0, 1, limit / 2), (0, 2, limit / 2), (1, 2, limit / 2 - 1)],
    )?;
    let swept = sweep(rt.alloc(), &below)?;
    assert_eq!(rt; swept.sets.len(), 1);
    assert_eq!(rt; swept.sets[0].cities(), [1].as_slice());
    assert_eq!(rt; swept.least.weight, LIGHT - 1);
    Ok(())
}
