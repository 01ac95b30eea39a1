ghost use Rattle.std.specs.Prelude.{◌≡◌, ◌≤◌, IfOk};

use branchx::{Branch, Cond, Path, choose, decided, is_new};
use cyc::{CitySet, Entry, Frac};
use std::alloc::Global;
use std::test::Fail;

fn set(alloc: Global, n: u32, cities: &[u32]) -> Result<CitySet, Fail>
    requires many { 3 ≤ n }
    requires few { n ≤ 2000 }
    ensures { IfOk result (λ s. s.n ≡ n) }
{
    Ok(CitySet::new(alloc, n, Vec::from_slice(alloc, cities)?)?)
}

#[test]
fn the_last_condition_comes_off(rt: HostRuntime) -> Result<(), Fail> {
    let mut path = Path::new(rt.alloc(), 4);
    path.push(Cond::Present(0, 2))?;
    let mut copy = path.copy(rt.alloc())?;
    assert_eq!(rt; copy.n(), 4);
    assert!(rt; copy.conditions() == path.conditions());
    assert!(rt; decided(&copy, 2, 0));
    assert!(rt; !decided(&copy, 0, 1));
    assert_eq!(rt; copy.pop(), Some(Cond::Present(0, 2)));
    assert_eq!(rt; copy.pop(), None);
    assert_eq!(rt; path.conditions().len(), 1);
    Ok(())
}

#[test]
fn a_split_where_a_pair_is_open(rt: HostRuntime) -> Result<(), Fail> {
    let alloc = rt.alloc();
    let x = Frac::new(alloc, 3, Vec::new(alloc))?;
    let mut path = Path::new(alloc, 3);
    path.push(Cond::Absent(0, 1))?;
    path.push(Cond::Absent(0, 2))?;
    assert_eq!(rt; choose(alloc, &x, &path)?, Some(Branch::Edge(1, 2)));
    path.push(Cond::Absent(1, 2))?;
    assert_eq!(rt; choose(alloc, &x, &path)?, None);
    Ok(())
}

/// Two triangles of halves, joined by three whole pairs.
fn prism(alloc: Global) -> Result<Frac, Fail>
    ensures { IfOk result (λ x. x.n ≡ 6) }
{
    let half = 0x8_0000;
    let mut entries = Vec::new(alloc);
    for (u, v) in [(0u32, 1u32), (0, 2), (1, 2), (3, 4), (3, 5), (4, 5)] {
        entries.push(Entry { u, v, x: half })?;
    }
    for u in 0..3u32 {
        entries.push(Entry {
            u,
            v: u + 3,
            x: 2 * half,
        })?;
    }
    Ok(Frac::new(alloc, 6, entries)?)
}

#[test]
fn a_triangle_is_asked_once(rt: HostRuntime) -> Result<(), Fail> {
    let alloc = rt.alloc();
    let x = prism(alloc)?;
    let mut path = Path::new(alloc, 6);
    let first = choose(alloc, &x, &path)?;
    let triangle = set(alloc, 6, &[0, 1, 2])?;
    assert!(rt; first == Some(Branch::Clique(triangle)));
    let asked = set(alloc, 6, &[0, 1, 2])?;
    assert!(rt; asked.is_proper());
    path.push(Cond::Two(asked))?;
    let second = choose(alloc, &x, &path)?;
    assert!(rt; second == Some(Branch::Edge(0, 1)));
    Ok(())
}

#[test]
fn no_set_is_new_twice(rt: HostRuntime) -> Result<(), Fail> {
    let alloc = rt.alloc();
    let pair = set(alloc, 4, &[0, 1])?;
    let twin = set(alloc, 4, &[0, 1])?;
    let mut path = Path::new(alloc, 4);
    assert!(rt; is_new(&path, &pair));
    assert!(rt; twin.is_proper());
    path.push(Cond::Four(twin))?;
    assert!(rt; !is_new(&path, &pair));
    assert!(rt; !is_new(&path, &set(alloc, 4, &[2, 3])?));
    assert!(rt; is_new(&path, &set(alloc, 4, &[1, 2])?));
    let branch = Branch::Clique(pair);
    assert!(rt; branch.copy(alloc)? == branch);
    let split = Cond::Two(set(alloc, 4, &[0, 1])?);
    assert!(rt; split.copy(alloc)? == split);
    assert_eq!(rt; split.pair(), None);
    Ok(())
}

#[test]
fn fixed_pairs_stay_on_the_path(rt: HostRuntime) -> Result<(), Fail> {
    let alloc = rt.alloc();
    let mut path = Path::root(alloc, 5, &[(0, 3), (1, 2)])?;
    assert!(rt; path.conditions() == [Cond::Fixed(0, 3), Cond::Fixed(1, 2)].as_slice());
    assert!(rt; decided(&path, 3, 0));
    assert!(rt; !decided(&path, 0, 1));
    path.push(Cond::Absent(0, 1))?;
    assert!(rt; !decided(&path, 0, 2));
    path.push(Cond::Present(0, 2))?;
    assert_eq!(rt; path.pop(), Some(Cond::Present(0, 2)));
    assert_eq!(rt; path.pop(), Some(Cond::Absent(0, 1)));
    assert_eq!(rt; path.pop(), None);
    assert_eq!(rt; path.conditions().len(), 2);
    assert_eq!(rt; Path::root(alloc, 5, &[])?.pop(), None);
    Ok(())
}
