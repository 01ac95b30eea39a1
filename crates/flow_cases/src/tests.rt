use cyc::{Entry, Frac};
use maxflow::{Network, flow, shrink};
use std::alloc::Global;
use std::test::Fail;
use tspplain::bits::{bit, bits_of, holds};
use tspplain::drawn::{loose_values, next};
use tspplain::separation::{crossing, least_between, least_of_all};

/// Three cities, of which the pairs 0 1, 0 2 and 1 2 have 3, 1 and 2 units.
fn triangle(alloc: Global) -> Result<Frac, Fail> {
    let entries = vec![in alloc;
        Entry { u: 0, v: 1, x: 3 },
        Entry { u: 0, v: 2, x: 1 },
        Entry { u: 1, v: 2, x: 2 },
    ]?;
    Ok(Frac::new(alloc, 3, entries)?)
}

#[test]
fn a_triangle_is_parted(rt: HostRuntime) -> Result<(), Fail> {
    let x = triangle(rt.alloc())?;
    assert_eq!(rt; x.n(), 3);
    let parted = flow(rt.alloc(), &x, 0, 2)?;
    assert_eq!(rt; parted.value, 3);
    assert_eq!(rt; parted.side.cities(), [0, 1].as_slice());
    let back = flow(rt.alloc(), &x, 2, 0)?;
    assert_eq!(rt; back.value, 3);
    assert_eq!(rt; back.side.cities(), [2].as_slice());
    Ok(())
}

#[test]
fn the_values_of_a_city_are_added(rt: HostRuntime) -> Result<(), Fail> {
    let x = triangle(rt.alloc())?;
    let network = Network::of(rt.alloc(), &x)?;
    let mut weights = vec![in rt.alloc(); 7u64; 3]?;
    network.add_values(1, &mut weights);
    network.add_values(2, &mut weights);
    assert_eq!(rt; weights.as_slice(), [11, 9, 9].as_slice());
    Ok(())
}

#[test]
fn values_of_no_pair_part_for_nothing(rt: HostRuntime) -> Result<(), Fail> {
    let x = Frac::new(rt.alloc(), 4, Vec::new(rt.alloc()))?;
    assert_eq!(rt; x.n(), 4);
    let parted = flow(rt.alloc(), &x, 3, 1)?;
    assert_eq!(rt; parted.value, 0);
    assert_eq!(rt; parted.side.cities(), [3].as_slice());
    Ok(())
}

/// Values as large as they may be, between all pairs of many cities.
#[test]
fn the_largest_values_are_added_up(rt: HostRuntime) -> Result<(), Fail> {
    let mut entries = Vec::new(rt.alloc());
    for u in 0..100 {
        for v in u + 1..100 {
            entries.push(Entry {
                u,
                v,
                x: 0x4000_0000,
            })?;
        }
    }
    let x = Frac::new(rt.alloc(), 100, entries)?;
    assert_eq!(rt; x.n(), 100);
    let parted = flow(rt.alloc(), &x, 17, 99)?;
    assert_eq!(rt; parted.value, 99 * 0x4000_0000);
    Ok(())
}

#[test]
fn flows_end_at_the_least_of_all_sets(rt: HostRuntime) -> Result<(), Fail> {
    for number in 0..500u64 {
        let x = loose_values(rt.alloc(), number)?;
        let n = x.n();
        let s = (next(number) >> 40) as u32 % n;
        let t = (s + 1 + (next(number) >> 50) as u32 % (n - 1)) % n;
        assert!(rt; s != t);
        let parted = flow(rt.alloc(), &x, s, t)?;
        let side = bits_of(&parted.side);
        assert!(rt; holds(side, s) && !holds(side, t), "at {number}");
        assert_eq!(rt; parted.value, crossing(&x, side), "at {number}");
        assert_eq!(rt;
            parted.value,
            least_between(&x, bit(s), bit(t)),
            "at {number}"
        );
    }
    Ok(())
}

#[test]
fn flows_to_several_stops_keep_to_a_limit(rt: HostRuntime) -> Result<(), Fail> {
    for number in 0..200u64 {
        let x = loose_values(rt.alloc(), number)?;
        let network = Network::of(rt.alloc(), &x)?;
        let n = network.n();
        assert_eq!(rt; x.n(), n);
        let marks = (next(number) >> 33) as u32;
        let mut stops = Vec::new(rt.alloc());
        for city in 0..n {
            stops.push(city > 0 && holds(marks, city))?;
        }
        assert_eq!(rt; stops.len(), n as usize);
        assert!(rt; !stops[0]);
        let all = least_between(&x, 1, marks & 0x7fe & bit(n).wrapping_sub(1));
        let side = network.flow(rt.alloc(), 0, &stops)?;
        assert_eq!(rt; side.value, all, "at {number}");
        assert_eq!(rt; crossing(&x, bits_of(&side.side)), all, "at {number}");
        assert!(rt;
            network.flow_below(rt.alloc(), 0, &stops, all)?.is_none(),
            "at {number}"
        );
        let again = network.flow_below(rt.alloc(), 0, &stops, all + 1)?;
        assert_eq!(rt; again.map(|side| side.value), Some(all), "at {number}");
    }
    Ok(())
}

#[test]
fn a_triangle_is_shrunk_to_one_group(rt: HostRuntime) -> Result<(), Fail> {
    let x = triangle(rt.alloc())?;
    let shrunk = shrink(rt.alloc(), &x)?;
    assert_eq!(rt; shrunk.groups.as_slice(), [0, 0, 0].as_slice());
    assert_eq!(rt; shrunk.best, 3);
    assert_eq!(rt; shrunk.set.cities(), [2].as_slice());
    Ok(())
}

/// The cities of a group as bits.
fn group_bits(groups: &[u32], first: u32) -> u32 {
    let mut all = 0;
    for (city, group) in (0u32..32).zip(groups) {
        if *group == first {
            all |= bit(city);
        }
    }
    all
}

/// Whether a set has of each group all or none.
fn is_union(groups: &[u32], set: u32) -> bool {
    for group in groups {
        let all = group_bits(groups, *group);
        if set & all != 0 && set & all != all {
            return false;
        }
    }
    true
}

/// The least that crosses a proper union of groups.
fn least_union(x: &Frac, groups: &[u32]) -> u64 {
    let mut least = u64::MAX;
    for set in 1..bit(x.n()).saturating_sub(1) {
        if is_union(groups, set) {
            least = least.min(crossing(x, set));
        }
    }
    least
}

/// Whether twice the weight between two sets is no less than what crosses either.
fn are_tied(x: &Frac, one: u32, other: u32) -> bool {
    let (a, b, both) = (
        crossing(x, one),
        crossing(x, other),
        crossing(x, one | other),
    );
    both <= a.min(b)
}

#[test]
fn shrinking_loses_no_least_set(rt: HostRuntime) -> Result<(), Fail> {
    let mut merged: u32 = 0;
    for number in 0..500u64 {
        let x = loose_values(rt.alloc(), number)?;
        let shrunk = shrink(rt.alloc(), &x)?;
        let groups = shrunk.groups.as_slice();
        assert_eq!(rt; groups.len(), x.n() as usize, "at {number}");
        let set = bits_of(&shrunk.set);
        assert!(rt; shrunk.set.is_proper(), "at {number}");
        assert_eq!(rt; crossing(&x, set), shrunk.best, "at {number}");
        let least = shrunk.best.min(least_union(&x, groups));
        assert_eq!(rt; least, least_of_all(&x), "at {number}");
        for (city, group) in (0u32..32).zip(groups) {
            assert!(rt; shrunk.best <= crossing(&x, bit(city)), "at {number}");
            assert!(rt;
                *group <= city && group_bits(groups, *group) & bit(*group) != 0,
                "at {number}"
            );
            for other in groups {
                let tied = are_tied(&x, group_bits(groups, *group), group_bits(groups, *other));
                assert!(rt; group == other || !tied, "at {number}");
            }
            merged = merged.saturating_add(u32::from(*group != city));
        }
    }
    assert!(rt; merged > 500);
    Ok(())
}
