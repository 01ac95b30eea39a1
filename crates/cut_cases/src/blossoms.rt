use cutform::Cut;
use cyc::{Entry, Frac};
use sepblos::{blossoms, wider_blossoms};
use std::alloc::{AllocError, Global};
use std::test::Fail;
use tspplain::bits::bits_of;
use tspplain::drawn::blossom_values;
use tspplain::separation;

/// The sets of each cut, as bits.
fn sets_of(alloc: Global, cuts: &[Cut]) -> Result<Vec<Vec<u32>>, AllocError> {
    let mut all = Vec::new(alloc);
    for cut in cuts {
        let mut sets = Vec::new(alloc);
        for set in cut.sets() {
            sets.push(bits_of(set))?;
        }
        all.push(sets)?;
    }
    Ok(all)
}

/// Two triangles of pairs of a half, and between them three pairs of a value.
fn prism(alloc: Global, across: u32) -> Result<Frac, Fail> {
    let mut entries = Vec::new(alloc);
    for (u, v) in [(0u32, 1u32), (0, 2), (1, 2), (3, 4), (3, 5), (4, 5)] {
        entries.push(Entry { u, v, x: 0x8_0000 })?;
    }
    for u in 0..3u32 {
        entries.push(Entry {
            u,
            v: u + 3,
            x: across,
        })?;
    }
    Ok(Frac::new(alloc, 6, entries)?)
}

#[test]
fn a_prism_has_a_blossom_at_each_end(rt: HostRuntime) -> Result<(), Fail> {
    let alloc = rt.alloc();
    let x = prism(alloc, 0x10_0000)?;
    let cuts = blossoms(alloc, &x)?;
    assert_eq!(rt; cuts.len(), 2);
    assert_eq!(rt; cuts[0].sets()[0].cities(), [0, 1, 2].as_slice());
    assert_eq!(rt; cuts[1].sets()[0].cities(), [3, 4, 5].as_slice());
    for sets in &sets_of(alloc, &cuts)? {
        assert_eq!(rt; separation::missed(&x, sets), 1_048_576);
    }
    Ok(())
}

#[test]
fn blossoms_are_those_of_a_plain_program(rt: HostRuntime) -> Result<(), Fail> {
    let alloc = rt.alloc();
    let mut many = 0u64;
    for number in 0..500u64 {
        let x = blossom_values(alloc, number)?;
        let expected = separation::blossoms(alloc, &x)?;
        many = many.saturating_add(expected.len() as u64);
        let cuts = blossoms(alloc, &x)?;
        assert!(rt; sets_of(alloc, &cuts)? == expected, "at {number}");
    }
    assert!(rt; many > 20, "only {many}");
    Ok(())
}

#[test]
fn pairs_less_near_to_one_are_teeth_of_wider_blossoms(rt: HostRuntime) -> Result<(), Fail> {
    let alloc = rt.alloc();
    let x = prism(alloc, 0xf_c000)?;
    assert!(rt; blossoms(alloc, &x)?.is_empty());
    let cuts = wider_blossoms(alloc, &x)?;
    assert_eq!(rt; cuts.len(), 2);
    assert_eq!(rt; cuts[0].sets()[0].cities(), [0, 1, 2].as_slice());
    assert_eq!(rt; cuts[1].sets()[0].cities(), [3, 4, 5].as_slice());
    for sets in &sets_of(alloc, &cuts)? {
        assert_eq!(rt; separation::missed(&x, sets), 1_097_728);
    }
    Ok(())
}

/// A triangle that four pairs leave: the one of a half is no tooth.
#[test]
fn the_pair_nearest_to_a_half_is_turned(rt: HostRuntime) -> Result<(), Fail> {
    let alloc = rt.alloc();
    let mut entries = Vec::new(alloc);
    for (u, v, x) in [
        (0u32, 1u32, 0x8_0000u32),
        (0, 2, 0x8_0000),
        (1, 2, 0x4_0000),
        (0, 3, 0x10_0000),
        (1, 4, 0x10_0000),
        (2, 5, 0x10_0000),
        (1, 6, 0xb_4000),
        (3, 6, 0x4_0000),
    ] {
        entries.push(Entry { u, v, x })?;
    }
    let x = Frac::new(alloc, 7, entries)?;
    let cuts = wider_blossoms(alloc, &x)?;
    assert!(rt; !cuts.is_empty());
    for cut in &cuts {
        assert_eq!(rt; cut.sets().len(), 4);
    }
    Ok(())
}

#[test]
fn wider_blossoms_are_missed(rt: HostRuntime) -> Result<(), Fail> {
    let alloc = rt.alloc();
    let mut many = 0u64;
    let mut new = 0u64;
    for number in 0..500u64 {
        let x = blossom_values(alloc, number)?;
        let exact = separation::blossoms(alloc, &x)?;
        for sets in &sets_of(alloc, &wider_blossoms(alloc, &x)?)? {
            many = many.saturating_add(1);
            if !exact.contains(sets) {
                new = new.saturating_add(1);
            }
            assert!(rt; separation::missed(&x, sets) >= 0x400, "at {number}");
        }
    }
    assert!(rt; many > 20, "only {many}");
    assert!(rt; new > 10, "only {new} new");
    Ok(())
}
