ghost use Rattle.std.specs.Prelude.{◌≤◌};

use cutform::{Cut, Kind};
use cutpool::{CutBox, CutPool, NoCuts, Placed, worth_adding};
use cyc::{CitySet, Entry, Frac};
use std::alloc::Global;
use std::test::Fail;

fn set(alloc: Global, n: u32, cities: &[u32]) -> Result<CitySet, Fail>
    requires many { 3 ≤ n }
    requires few { n ≤ 2000 }
{
    Ok(CitySet::new(alloc, n, Vec::from_slice(alloc, cities)?)?)
}

pub fn subtour(alloc: Global, n: u32, cities: &[u32]) -> Result<Cut, Fail>
    requires many { 3 ≤ n }
    requires few { n ≤ 2000 }
{
    Ok(Cut::subtour(alloc, set(alloc, n, cities)?)?)
}

/// The comb of a prism.
pub fn comb(alloc: Global) -> Result<Cut, Fail> {
    let mut teeth = Vec::new(alloc);
    for u in 0..3u32 {
        teeth.push(set(alloc, 6, &[u, u + 3])?)?;
    }
    Ok(Cut::comb(alloc, set(alloc, 6, &[0, 1, 2])?, teeth)?)
}

/// Two triangles of pairs of a half, and between them three pairs of one length.
pub fn prism(alloc: Global) -> Result<Frac, Fail> {
    let mut entries = Vec::new(alloc);
    for (u, v) in [(0u32, 1u32), (0, 2), (1, 2), (3, 4), (3, 5), (4, 5)] {
        entries.push(Entry { u, v, x: 0x8_0000 })?;
    }
    for u in 0..3u32 {
        entries.push(Entry {
            u,
            v: u + 3,
            x: 0x10_0000,
        })?;
    }
    Ok(Frac::new(alloc, 6, entries)?)
}

#[test]
fn an_equal_cut_has_the_number_of_the_first(rt: HostRuntime) -> Result<(), Fail> {
    let alloc = rt.alloc();
    let mut pool = CutPool::new(alloc, 6);
    assert_eq!(rt; pool.n(), 6);
    let pair = subtour(alloc, 6, &[0, 1])?;
    let comb = comb(alloc)?;
    assert_eq!(rt; comb.n(), 6);
    assert_eq!(rt; pair.n(), 6);
    assert_eq!(rt; pool.put(alloc, &comb)?, Placed::Number(0));
    assert_eq!(rt; pool.put(alloc, &pair)?, Placed::Number(1));
    assert_eq!(rt; pool.put(alloc, &comb)?, Placed::Number(0));
    assert_eq!(rt; pool.len(), 2);
    let x = prism(alloc)?;
    assert_eq!(rt; x.n(), 6);
    let violated = pool.violated(alloc, &x)?;
    assert_eq!(rt; violated.len(), 1);
    assert!(rt; violated[0] == comb);
    Ok(())
}

/// Shares a cut, and fetches by a box's bound.
fn given_back<B: CutBox>(
    alloc: Global,
    cuts: &mut B,
    cut: &Cut,
    x: &Frac,
) -> Result<Vec<Cut>, Fail> {
    cuts.share(alloc, cut)?;
    Ok(cuts.fetch(alloc, x)?)
}

#[test]
fn a_box_passes_over_cuts_of_other_cities(rt: HostRuntime) -> Result<(), Fail> {
    let alloc = rt.alloc();
    let mut pool = CutPool::new(alloc, 6);
    let x = prism(alloc)?;
    let other = subtour(alloc, 7, &[0, 1])?;
    assert!(rt; given_back(alloc, &mut pool, &other, &x)?.is_empty());
    assert_eq!(rt; pool.len(), 0);
    let fetched = given_back(alloc, &mut pool, &comb(alloc)?, &x)?;
    assert_eq!(rt; fetched.len(), 1);
    assert_eq!(rt; fetched[0].kind(), Kind::Comb);
    let wider = Frac::new(alloc, 7, Vec::new(alloc))?;
    assert!(rt; pool.fetch(alloc, &wider)?.is_empty());
    assert!(rt; given_back(alloc, &mut NoCuts, &comb(alloc)?, &x)?.is_empty());
    Ok(())
}

/// Of a cut of other cities, the comb, a cut that is met, and the comb again the comb twice, or once.
#[test]
fn cuts_of_any_box_are_sifted(rt: HostRuntime) -> Result<(), Fail> {
    let alloc = rt.alloc();
    let x = prism(alloc)?;
    for most in [2usize, 1] {
        let mut cuts = Vec::new(alloc);
        cuts.push(subtour(alloc, 7, &[0, 1])?)?;
        cuts.push(comb(alloc)?)?;
        cuts.push(subtour(alloc, 6, &[0, 1])?)?;
        cuts.push(comb(alloc)?)?;
        let kept = worth_adding(alloc, &x, cuts, most)?;
        assert_eq!(rt; kept.len(), most);
        for cut in &kept {
            assert_eq!(rt; cut.kind(), Kind::Comb);
        }
    }
    Ok(())
}
