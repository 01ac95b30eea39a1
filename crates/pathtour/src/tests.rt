ghost use Rattle.std.specs.Prelude.{◌≡◌, IfOk};

use crate::{tour_of, used_pairs_are_one_tour};
use branchx::{Cond, Path, decided};
use cyc::CitySet;
use std::alloc::Global;
use std::test::Fail;

/// The path that uses these pairs.
fn path_of(alloc: Global, n: u32, pairs: &[(u32, u32)]) -> Result<Path, Fail>
    ensures { IfOk result (λ p. p.n ≡ n) }
{
    let mut path = Path::new(alloc, n);
    for (u, v) in pairs {
        if *u < *v && *v < n && !decided(&path, *u, *v) {
            path.push(Cond::Present(*u, *v))?;
        } else {
            return Err("not a pair".into());
        }
    }
    Ok(path)
}

#[test]
fn a_ring_of_five(rt: HostRuntime) -> Result<(), Fail> {
    let alloc = rt.alloc();
    used_pairs_are_one_tour();
    let path = path_of(alloc, 5, &[(2, 3), (0, 4), (0, 1), (3, 4), (1, 2)])?;
    let tour = tour_of(alloc, &path)?.ok_or("no tour")?;
    assert_eq!(rt; tour.cities(), [0, 1, 2, 3, 4].as_slice());
    Ok(())
}

#[test]
fn three_cities(rt: HostRuntime) -> Result<(), Fail> {
    let alloc = rt.alloc();
    let path = path_of(alloc, 3, &[(1, 2), (0, 2), (0, 1)])?;
    let tour = tour_of(alloc, &path)?.ok_or("no tour")?;
    assert_eq!(rt; tour.cities(), [0, 1, 2].as_slice());
    Ok(())
}

#[test]
fn a_tour_that_crosses_itself(rt: HostRuntime) -> Result<(), Fail> {
    let alloc = rt.alloc();
    let path = path_of(alloc, 4, &[(0, 3), (1, 3), (1, 2), (0, 2)])?;
    let tour = tour_of(alloc, &path)?.ok_or("no tour")?;
    assert_eq!(rt; tour.cities(), [0, 2, 1, 3].as_slice());
    Ok(())
}

#[test]
fn sets_and_unused_pairs_are_passed_over(rt: HostRuntime) -> Result<(), Fail> {
    let alloc = rt.alloc();
    let mut path = path_of(alloc, 4, &[(0, 1), (1, 2), (2, 3)])?;
    let mut cities = Vec::new(alloc);
    cities.push(0)?;
    cities.push(1)?;
    let set = CitySet::new(alloc, 4, cities)?;
    assert!(rt; set.is_proper());
    path.push(Cond::Four(set))?;
    assert!(rt; !decided(&path, 0, 2));
    path.push(Cond::Absent(0, 2))?;
    assert!(rt; tour_of(alloc, &path)?.is_none());
    assert!(rt; !decided(&path, 0, 3));
    path.push(Cond::Present(0, 3))?;
    let tour = tour_of(alloc, &path)?.ok_or("no tour")?;
    assert_eq!(rt; tour.cities(), [0, 1, 2, 3].as_slice());
    Ok(())
}

#[test]
fn fixed_pairs_are_used(rt: HostRuntime) -> Result<(), Fail> {
    let alloc = rt.alloc();
    let mut path = Path::root(alloc, 4, &[(0, 3), (1, 2), (1, 3)])?;
    assert!(rt; tour_of(alloc, &path)?.is_none());
    assert!(rt; !decided(&path, 0, 2));
    path.push(Cond::Present(0, 2))?;
    let tour = tour_of(alloc, &path)?.ok_or("no tour")?;
    assert_eq!(rt; tour.cities(), [0, 2, 1, 3].as_slice());
    Ok(())
}

#[test]
fn no_tour(rt: HostRuntime) -> Result<(), Fail> {
    let alloc = rt.alloc();
    let triangles = path_of(alloc, 6, &[(0, 1), (1, 2), (0, 2), (3, 4), (4, 5), (3, 5)])?;
    assert!(rt; tour_of(alloc, &triangles)?.is_none());
    let open = path_of(alloc, 4, &[(0, 1), (1, 2), (2, 3)])?;
    assert!(rt; tour_of(alloc, &open)?.is_none());
    let three_at_0 = path_of(alloc, 4, &[(0, 1), (1, 2), (2, 3), (0, 3), (0, 2)])?;
    assert!(rt; tour_of(alloc, &three_at_0)?.is_none());
    let none = path_of(alloc, 3, &[])?;
    assert!(rt; tour_of(alloc, &none)?.is_none());
    Ok(())
}
