use cutform::Cut;
use cyc::{CitySet, Entry, Frac, Tour};
use intervalcombs::interval_combs;
use std::alloc::{AllocError, Global};
use std::test::Fail;
use tspplain::bits::bits_of;
use tspplain::drawn::{blossom_values, comb_values};
use tspplain::separation;

/// Half a length, in units.
const HALF: u32 = 0x8_0000;

/// The sets of a cut, as bits.
fn sets_of(alloc: Global, cut: &Cut) -> Result<Vec<u32>, AllocError> {
    let mut sets = Vec::new(alloc);
    for set in cut.sets() {
        sets.push(bits_of(set))?;
    }
    Ok(sets)
}

#[test]
fn a_prism_has_its_comb_along_its_tour(rt: HostRuntime) -> Result<(), Fail> {
    let alloc = rt.alloc();
    let mut entries = Vec::new(alloc);
    for (u, v) in [(0u32, 1u32), (0, 2), (1, 2), (3, 4), (3, 5), (4, 5)] {
        entries.push(Entry { u, v, x: HALF })?;
    }
    for u in 0..3u32 {
        entries.push(Entry {
            u,
            v: u + 3,
            x: 2 * HALF,
        })?;
    }
    let x = Frac::new(alloc, 6, entries)?;
    let tour = Tour::new(alloc, 6, vec![in alloc; 0, 3, 4, 1, 2, 5]?)?;
    let cuts = interval_combs(alloc, &x, &tour, &[])?;
    assert_eq!(rt; cuts.len(), 1);
    let sets = sets_of(alloc, &cuts[0])?;
    assert_eq!(rt;
        sets.as_slice(),
        [0b00_0111, 0b00_1001, 0b01_0010, 0b10_0100].as_slice()
    );
    assert_eq!(rt; separation::missed(&x, &sets), 1_048_576);
    Ok(())
}

/// Three triangles, each with a pair of one length and two of a half, that are joined to one another by halves at each corner.
fn triangles(alloc: Global) -> Result<Frac, Fail> {
    let mut entries = Vec::new(alloc);
    for (u, v) in [(0u32, 1u32), (0, 2), (1, 2), (4, 5), (6, 7), (3, 8)] {
        entries.push(Entry { u, v, x: HALF })?;
    }
    for (u, v) in [(0u32, 3u32), (0, 4), (1, 5), (1, 6), (2, 7), (2, 8)] {
        entries.push(Entry { u, v, x: HALF })?;
    }
    for (u, v) in [(3u32, 4u32), (5, 6), (7, 8)] {
        entries.push(Entry { u, v, x: 2 * HALF })?;
    }
    Ok(Frac::new(alloc, 9, entries)?)
}

#[test]
fn a_comb_has_teeth_of_three_cities(rt: HostRuntime) -> Result<(), Fail> {
    let alloc = rt.alloc();
    let x = triangles(alloc)?;
    let tour = Tour::new(alloc, 9, vec![in alloc; 3, 0, 4, 5, 1, 6, 7, 2, 8]?)?;
    assert!(rt; interval_combs(alloc, &x, &tour, &[])?.is_empty());
    let mut known = Vec::new(alloc);
    known.push(CitySet::new(alloc, 9, vec![in alloc; 0, 1, 2]?)?)?;
    let cuts = interval_combs(alloc, &x, &tour, &known)?;
    assert_eq!(rt; cuts.len(), 1);
    let sets = sets_of(alloc, &cuts[0])?;
    assert_eq!(rt;
        sets.as_slice(),
        [0b111, 0b1_1001, 0b110_0010, 0b1_1000_0100].as_slice()
    );
    assert_eq!(rt; separation::missed(&x, &sets), 1_048_576);
    Ok(())
}

/// How many combs values have along the cities' own order; the least by which a plain program sees one missed is noted.
fn count(alloc: Global, x: &Frac, least: &mut u64) -> Result<u64, Fail> {
    let tour = Tour::identity(alloc, x.n())?;
    let cuts = interval_combs(alloc, x, &tour, &[])?;
    for cut in &cuts {
        let sets = sets_of(alloc, cut)?;
        *least = separation::missed(x, &sets).min(*least);
    }
    Ok(cuts.len() as u64)
}

#[test]
fn drawn_values_miss_each_comb_by_the_count_of_a_plain_program(
    rt: HostRuntime,
) -> Result<(), Fail> {
    let alloc = rt.alloc();
    let mut many = 0u64;
    let mut least = u64::MAX;
    for number in 0..500u64 {
        many = many.saturating_add(count(alloc, &comb_values(alloc, number)?, &mut least)?);
        many = many.saturating_add(count(alloc, &blossom_values(alloc, number)?, &mut least)?);
    }
    assert!(rt; least >= 1024, "only {least} units");
    assert!(rt; many > 20, "only {many}");
    Ok(())
}
