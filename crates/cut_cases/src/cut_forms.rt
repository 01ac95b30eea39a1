ghost use Rattle.std.specs.Prelude.{◌≤◌};

use cutform::{Cut, CutError, Kind};
use cyc::CitySet;
use std::alloc::Global;
use std::collections::HashSet;
use std::test::Fail;

fn set(alloc: Global, n: u32, cities: &[u32]) -> Result<CitySet, Fail>
    requires many { 3 ≤ n }
    requires few { n ≤ 2000 }
{
    Ok(CitySet::new(alloc, n, Vec::from_slice(alloc, cities)?)?)
}

// The comb of a handle and three teeth of two cities, or why there is none.
fn comb(
    alloc: Global,
    n: u32,
    handle: &[u32],
    teeth: [[u32; 2]; 3],
) -> Result<Result<Cut, CutError>, Fail>
    requires many { 3 ≤ n }
    requires few { n ≤ 2000 }
{
    let mut sets = Vec::new(alloc);
    for tooth in &teeth {
        sets.push(set(alloc, n, tooth)?)?;
    }
    Ok(Cut::comb(alloc, set(alloc, n, handle)?, sets))
}

fn prism(alloc: Global) -> Result<Cut, Fail> {
    Ok(comb(alloc, 6, &[0, 1, 2], [[0, 3], [1, 4], [2, 5]])??)
}

#[test]
fn the_comb_of_a_prism(rt: HostRuntime) -> Result<(), Fail> {
    let cut = prism(rt.alloc())?;
    assert_eq!(rt; cut.kind(), Kind::Comb);
    assert_eq!(rt; cut.n(), 6);
    assert_eq!(rt; cut.sets().len(), 4);
    assert_eq!(rt; cut.rhs(), 10);
    assert_eq!(rt; cut.coef(0, 1), 2);
    assert_eq!(rt; cut.coef(0, 3), 1);
    assert_eq!(rt; cut.coef(0, 4), 3);
    assert!(rt; cut.copy(rt.alloc())? == cut);
    Ok(())
}

#[test]
fn defects_of_combs(rt: HostRuntime) -> Result<(), Fail> {
    let alloc = rt.alloc();
    let mut two_teeth = Vec::new(alloc);
    two_teeth.push(set(alloc, 6, &[0, 3])?)?;
    two_teeth.push(set(alloc, 6, &[1, 4])?)?;
    let even = Cut::comb(alloc, set(alloc, 6, &[0, 1, 2])?, two_teeth).err();
    assert_eq!(rt; even, Some(CutError::EvenTeeth));
    let in_handle = comb(alloc, 6, &[0, 1, 2], [[0, 1], [1, 4], [2, 5]])?.err();
    assert_eq!(rt; in_handle, Some(CutError::TeethMeet));
    let off_handle = comb(alloc, 6, &[0, 1, 2], [[3, 4], [1, 4], [2, 5]])?.err();
    assert_eq!(rt; off_handle, Some(CutError::TeethMeet));
    let inside = comb(alloc, 9, &[0, 1, 2, 6], [[0, 3], [1, 4], [2, 6]])?.err();
    assert_eq!(rt; inside, Some(CutError::ToothInside));
    let outside = comb(alloc, 9, &[0, 1, 2, 6], [[0, 3], [1, 4], [5, 7]])?.err();
    assert_eq!(rt; outside, Some(CutError::ToothOutside));
    Ok(())
}

#[test]
fn subtours_come_before_combs(rt: HostRuntime) -> Result<(), Fail> {
    let alloc = rt.alloc();
    let all = Cut::subtour(alloc, set(alloc, 4, &[0, 1, 2, 3])?).err();
    assert_eq!(rt; all, Some(CutError::NotProper));
    let subtour = Cut::subtour(alloc, set(alloc, 6, &[3, 4, 5])?)?;
    let comb = prism(alloc)?;
    assert_eq!(rt; subtour.rhs(), 2);
    assert!(rt; subtour < comb);
    let mut cuts = HashSet::new(alloc);
    assert!(rt; cuts.insert(prism(alloc)?)?);
    assert!(rt; cuts.insert(subtour)?);
    assert!(rt; !cuts.insert(comb)?);
    Ok(())
}

// The odd cut of the prism's handle and these pairs, or why there is none.
fn odd(alloc: Global, n: u32, pairs: &[(u32, u32)]) -> Result<Result<Cut, CutError>, Fail>
    requires many { 3 ≤ n }
    requires few { n ≤ 2000 }
{
    let pairs = Vec::from_slice(alloc, pairs)?;
    Ok(Cut::odd(alloc, set(alloc, n, &[0, 1, 2])?, pairs))
}

const MATCHING: [(u32, u32); 3] = [(0, 3), (1, 4), (2, 5)];

#[test]
fn the_odd_cut_of_a_prism(rt: HostRuntime) -> Result<(), Fail> {
    let alloc = rt.alloc();
    let cut = odd(alloc, 6, &MATCHING)??;
    assert_eq!(rt; cut.kind(), Kind::Odd);
    assert_eq!(rt; cut.n(), 6);
    assert_eq!(rt; cut.sets().len(), 1);
    assert_eq!(rt; cut.pairs(), MATCHING.as_slice());
    assert_eq!(rt; cut.rhs(), 10);
    assert_eq!(rt; cut.coef(0, 1), 2);
    assert_eq!(rt; cut.coef(0, 3), 1);
    assert_eq!(rt; cut.coef(0, 4), 3);
    assert_eq!(rt; cut.coef(3, 4), 2);
    assert!(rt; cut.copy(alloc)? == cut);
    let sets = cut.all_sets(alloc)?;
    let comb = prism(alloc)?;
    assert_eq!(rt; sets.as_slice(), comb.sets());
    assert!(rt; comb < cut);
    assert!(rt; Cut::subtour(alloc, set(alloc, 6, &[3, 4, 5])?)? < cut);
    Ok(())
}

#[test]
fn pairs_share_cities(rt: HostRuntime) -> Result<(), Fail> {
    let alloc = rt.alloc();
    let star = odd(alloc, 6, &[(0, 3), (0, 4), (0, 5)])??;
    assert_eq!(rt; star.coef(0, 3), 3);
    assert_eq!(rt; star.coef(3, 4), 2);
    assert_eq!(rt; star.coef(0, 1), 3);
    let matching = odd(alloc, 6, &MATCHING)??;
    assert!(rt; matching > star);
    let one = odd(alloc, 6, &[(0, 3)])??;
    assert_eq!(rt; one.rhs(), 4);
    assert!(rt; one < star);
    let mut cuts = HashSet::new(alloc);
    assert!(rt; cuts.insert(star)?);
    assert!(rt; cuts.insert(matching)?);
    assert!(rt; !cuts.insert(odd(alloc, 6, &MATCHING)??)?);
    assert!(rt; cuts.insert(prism(alloc)?)?);
    Ok(())
}

#[test]
fn defects_of_odd_cuts(rt: HostRuntime) -> Result<(), Fail> {
    let alloc = rt.alloc();
    let all = odd(alloc, 3, &MATCHING)?.err();
    assert_eq!(rt; all, Some(CutError::NotProper));
    let none = odd(alloc, 6, &[])?.err();
    assert_eq!(rt; none, Some(CutError::EvenTeeth));
    let two = odd(alloc, 6, &[(0, 1), (1, 9)])?.err();
    assert_eq!(rt; two, Some(CutError::EvenTeeth));
    let turned = odd(alloc, 6, &[(0, 3), (4, 1), (2, 5)])?.err();
    assert_eq!(rt; turned, Some(CutError::NotRising));
    let high = odd(alloc, 6, &[(0, 3), (1, 4), (2, 6)])?.err();
    assert_eq!(rt; high, Some(CutError::NotRising));
    let twice = odd(alloc, 6, &[(0, 3), (0, 3), (1, 2)])?.err();
    assert_eq!(rt; twice, Some(CutError::NotRising));
    let falling = odd(alloc, 6, &[(0, 3), (2, 5), (1, 4)])?.err();
    assert_eq!(rt; falling, Some(CutError::NotRising));
    let inside = odd(alloc, 6, &[(0, 1), (1, 4), (2, 5)])?.err();
    assert_eq!(rt; inside, Some(CutError::PairInside));
    let outside = odd(alloc, 6, &[(0, 3), (1, 4), (3, 4)])?.err();
    assert_eq!(rt; outside, Some(CutError::PairInside));
    Ok(())
}

// An odd cut of 140 cities, with this many of the pairs from the first 70 to the others.
fn wide(alloc: Global, many: usize) -> Result<Option<CutError>, Fail> {
    let mut handle = Vec::new(alloc);
    let mut pairs = Vec::new(alloc);
    for u in 0..70 {
        handle.push(u)?;
        for v in 70..140 {
            if pairs.len() < many {
                pairs.push((u, v))?;
            }
        }
    }
    Ok(Cut::odd(alloc, set(alloc, 140, &handle)?, pairs).err())
}

#[test]
fn at_most_4095_pairs(rt: HostRuntime) -> Result<(), Fail> {
    assert_eq!(rt; wide(rt.alloc(), 4095)?, None);
    assert_eq!(rt; wide(rt.alloc(), 4097)?, Some(CutError::TooMany));
    Ok(())
}
