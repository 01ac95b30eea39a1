use cutform::Cut;
use cyc::{Entry, Frac};
use sepcomb::combs;
use std::alloc::{AllocError, Global};
use std::test::Fail;
use tspplain::bits::bits_of;
use tspplain::drawn::comb_values;
use tspplain::separation;

/// The sets of each cut, as bits.
fn sets_of(alloc: Global, cuts: &[Cut]) -> Result<Vec<Vec<u32>>, AllocError> {
    let mut all = Vec::new(alloc);
    for cut in cuts {
        let mut sets = Vec::new(alloc);
        for set in cut.sets() {
            sets.push(bits_of(set))?;
        }
        all.push(sets)?;
    }
    Ok(all)
}

#[test]
fn a_prism_has_a_comb_at_each_end(rt: HostRuntime) -> Result<(), Fail> {
    let alloc = rt.alloc();
    let half = 0x8_0000;
    let mut entries = Vec::new(alloc);
    for (u, v) in [(0u32, 1u32), (0, 2), (1, 2), (3, 4), (3, 5), (4, 5)] {
        entries.push(Entry { u, v, x: half })?;
    }
    for u in 0..3u32 {
        entries.push(Entry {
            u,
            v: u + 3,
            x: 2 * half,
        })?;
    }
    let x = Frac::new(alloc, 6, entries)?;
    let cuts = combs(alloc, &x)?;
    assert_eq!(rt; cuts.len(), 2);
    assert_eq!(rt; cuts[0].sets()[0].cities(), [0, 1, 2].as_slice());
    assert_eq!(rt; cuts[1].sets()[0].cities(), [3, 4, 5].as_slice());
    for sets in &sets_of(alloc, &cuts)? {
        assert_eq!(rt; separation::missed(&x, sets), 1_048_576);
    }
    Ok(())
}

#[test]
fn combs_are_those_of_a_plain_program(rt: HostRuntime) -> Result<(), Fail> {
    let alloc = rt.alloc();
    let mut many = 0u64;
    let mut grown = 0u64;
    for number in 0..500u64 {
        let x = comb_values(alloc, number)?;
        let expected = separation::combs(alloc, &x)?;
        for sets in &expected {
            many = many.saturating_add(1);
            for set in sets.iter().skip(1) {
                if set.count_ones() > 2 {
                    grown = grown.saturating_add(1);
                }
            }
        }
        let cuts = combs(alloc, &x)?;
        assert!(rt; sets_of(alloc, &cuts)? == expected, "at {number}");
    }
    assert!(rt; many > 15, "only {many}");
    assert!(rt; grown > 2, "only {grown} grown teeth");
    Ok(())
}
