//! Worked values, and one call of each public function.

ghost use Rattle.std.specs.Prelude.{◌≡◌, ◌≤◌, true, IfOk};
ghost use Rattle.certdef.specs.Items.{is_set};

use branchx::{Cond, Path};
use certtests::{
    canonical_tour, city_set, closes, closes_in_place, comb, has_length, is_proper, names_clique,
    odd, subtour,
};
use cutform::Kind;
use cyc::CitySet;
use distx::{Kind as Rule, Point};
use std::alloc::Global;
use std::test::Fail;
use tspinst::{Instance, from_points};

/// The corners of a square of side 10.
fn square(alloc: Global) -> Result<Instance, Fail>
    ensures { IfOk result (λ i. i.n ≡ 4) }
{
    let points = [
        Point::new(0, 0),
        Point::new(10, 0),
        Point::new(10, 10),
        Point::new(0, 10),
    ];
    Ok(from_points(alloc, Rule::Euc, &points)?)
}

/// Two triangles of side 1, 99 apart.
fn two_triangles(alloc: Global) -> Result<Instance, Fail>
    ensures { IfOk result (λ i. i.n ≡ 6) }
{
    let points = [
        Point::new(0, 0),
        Point::new(1, 0),
        Point::new(0, 1),
        Point::new(100, 0),
        Point::new(101, 0),
        Point::new(100, 1),
    ];
    Ok(from_points(alloc, Rule::Max, &points)?)
}

/// The set of some of six cities from 1.
fn set(alloc: Global, cities: &[u32]) -> Result<CitySet, Fail>
    requires { is_set 6 cities.now ≡ true }
    ensures { IfOk result (λ s. s.n ≡ 6) }
{
    Ok(city_set(alloc, 6, Vec::from_slice(alloc, cities)?)?)
}

#[test]
fn sets_and_subtour_cuts(rt: HostRuntime) -> Result<(), Fail> {
    let alloc = rt.alloc();
    let some = set(alloc, &[2, 6])?;
    assert_eq!(rt; some.cities(), [1, 5].as_slice());
    assert!(rt; is_proper(&some));
    let cut = subtour(alloc, some)?.ok_or("no cut")?;
    assert_eq!(rt; cut.kind(), Kind::Subtour);
    assert_eq!(rt; cut.sets()[0].cities(), [1, 5].as_slice());
    let all = set(alloc, &[1, 2, 3, 4, 5, 6])?;
    assert!(rt; !is_proper(&all));
    assert!(rt; subtour(alloc, all)?.is_none());
    Ok(())
}

#[test]
fn combs(rt: HostRuntime) -> Result<(), Fail> {
    let alloc = rt.alloc();
    let mut teeth = Vec::new(alloc);
    teeth.push(set(alloc, &[1, 4])?)?;
    teeth.push(set(alloc, &[2, 5])?)?;
    teeth.push(set(alloc, &[3, 6])?)?;
    let cut = comb(alloc, set(alloc, &[1, 2, 3])?, teeth)?.ok_or("no cut")?;
    assert_eq!(rt; cut.kind(), Kind::Comb);
    assert_eq!(rt; cut.rhs(), 10);
    let mut two = Vec::new(alloc);
    two.push(set(alloc, &[1, 4])?)?;
    two.push(set(alloc, &[2, 5])?)?;
    assert!(rt; comb(alloc, set(alloc, &[1, 2, 3])?, two)?.is_none());
    let mut meeting = Vec::new(alloc);
    meeting.push(set(alloc, &[1, 4])?)?;
    meeting.push(set(alloc, &[2, 4])?)?;
    meeting.push(set(alloc, &[3, 6])?)?;
    assert!(rt; comb(alloc, set(alloc, &[1, 2, 3])?, meeting)?.is_none());
    Ok(())
}

#[test]
fn odd_cuts(rt: HostRuntime) -> Result<(), Fail> {
    let alloc = rt.alloc();
    let across = [(0, 3), (1, 4), (2, 5)];
    let pairs = Vec::from_slice(alloc, &across)?;
    let cut = odd(alloc, set(alloc, &[1, 2, 3])?, pairs)?.ok_or("no cut")?;
    assert_eq!(rt; cut.kind(), Kind::Odd);
    assert_eq!(rt; cut.rhs(), 10);
    let two = Vec::from_slice(alloc, &across[..2])?;
    assert!(rt; odd(alloc, set(alloc, &[1, 2, 3])?, two)?.is_none());
    let inside = Vec::from_slice(alloc, &[(0, 1), (1, 4), (2, 5)])?;
    assert!(rt; odd(alloc, set(alloc, &[1, 2, 3])?, inside)?.is_none());
    Ok(())
}

#[test]
fn tours(rt: HostRuntime) -> Result<(), Fail> {
    let alloc = rt.alloc();
    let square = square(alloc)?;
    let tour = canonical_tour(alloc, &square, &[1, 3, 2, 4])?.ok_or("no tour")?;
    assert_eq!(rt; tour.cities(), [0, 2, 1, 3].as_slice());
    let none: [&[u64]; 8] = [
        &[1, 4, 2, 3],
        &[2, 1, 4, 3],
        &[0, 2, 3, 4],
        &[1, 2, 2, 4],
        &[1, 2, 3],
        &[1, 2, 3, 4, 5],
        &[1, 2, 3, 5],
        &[1, 2, 3, 4294967300],
    ];
    for cities in none {
        assert!(rt;
            canonical_tour(alloc, &square, cities)?.is_none(),
            "at {cities:?}"
        );
    }
    Ok(())
}

#[test]
fn tours_that_lack_a_fixed_pair(rt: HostRuntime) -> Result<(), Fail> {
    let alloc = rt.alloc();
    let crossed = square(alloc)?.fix(alloc, &[(0, 2)])?;
    assert!(rt; canonical_tour(alloc, &crossed, &[1, 2, 4, 3])?.is_some());
    assert!(rt; canonical_tour(alloc, &crossed, &[1, 3, 2, 4])?.is_some());
    assert!(rt; canonical_tour(alloc, &crossed, &[1, 2, 3, 4])?.is_none());
    let both = square(alloc)?.fix(alloc, &[(1, 3), (0, 2)])?;
    assert!(rt; canonical_tour(alloc, &both, &[1, 2, 4, 3])?.is_some());
    assert!(rt; canonical_tour(alloc, &both, &[1, 2, 3, 4])?.is_none());
    Ok(())
}

#[test]
fn the_length_of_a_tour(rt: HostRuntime) -> Result<(), Fail> {
    let alloc = rt.alloc();
    let square = square(alloc)?;
    let tour = canonical_tour(alloc, &square, &[1, 2, 3, 4])?.ok_or("no tour")?;
    assert!(rt; has_length(&square, &tour, 40));
    assert!(rt; !has_length(&square, &tour, 41));
    Ok(())
}

#[test]
fn city_duals_of_a_square(rt: HostRuntime) -> Result<(), Fail> {
    let alloc = rt.alloc();
    let square = square(alloc)?;
    let path = Path::new(alloc, 4);
    let five = [(1, 5242880), (2, 5242880), (3, 5242880), (4, 5242880)];
    assert!(rt; closes(alloc, &square, 40, &[], &path, &five, &[], &[])?);
    let less = [(1, 5111808), (2, 5111808), (3, 5111808), (4, 5111808)];
    assert!(rt; !closes(alloc, &square, 40, &[], &path, &less, &[], &[])?);
    Ok(())
}

#[test]
fn the_dual_of_the_second_cut(rt: HostRuntime) -> Result<(), Fail> {
    let alloc = rt.alloc();
    let triangles = two_triangles(alloc)?;
    let path = Path::new(alloc, 6);
    let across = subtour(alloc, set(alloc, &[1, 4])?)?.ok_or("no cut")?;
    let triangle = subtour(alloc, set(alloc, &[1, 2, 3])?)?.ok_or("no cut")?;
    let cuts = [across, triangle];
    let first = [(1, 103809024)];
    let second = [(2, 103809024)];
    assert!(rt; closes(alloc, &triangles, 198, &cuts, &path, &[], &second, &[])?);
    assert!(rt; !closes(alloc, &triangles, 199, &cuts, &path, &[], &second, &[])?);
    assert!(rt; !closes(alloc, &triangles, 198, &cuts, &path, &[], &first, &[])?);
    Ok(())
}

#[test]
fn the_cuts_of_a_leaf_stand_where_they_stood(rt: HostRuntime) -> Result<(), Fail> {
    let alloc = rt.alloc();
    let triangles = two_triangles(alloc)?;
    let path = Path::new(alloc, 6);
    let mut cuts = Vec::new(alloc);
    cuts.push(subtour(alloc, set(alloc, &[1, 4])?)?.ok_or("no cut")?)?;
    cuts.push(subtour(alloc, set(alloc, &[1, 2, 3])?)?.ok_or("no cut")?)?;
    cuts.push(subtour(alloc, set(alloc, &[2, 5])?)?.ok_or("no cut")?)?;
    let second = [(2, 103809024)];
    let both = [(1, 1), (2, 103809023)];
    assert!(rt; closes_in_place(alloc, &triangles, 198, &mut cuts, &path, &[], &second, &[])?);
    assert!(rt; !closes_in_place(alloc, &triangles, 199, &mut cuts, &path, &[], &both, &[])?);
    assert!(rt; closes_in_place(alloc, &triangles, 198, &mut cuts, &path, &[], &second, &[])?);
    assert_eq!(rt; cuts.len(), 3);
    assert_eq!(rt; cuts[2].sets()[0].cities(), [1, 4].as_slice());
    Ok(())
}

#[test]
fn depths_count_behind_the_fixed_pairs(rt: HostRuntime) -> Result<(), Fail> {
    let alloc = rt.alloc();
    let mut path = Path::root(alloc, 6, &[(0, 1), (2, 5)])?;
    path.push(Cond::Absent(0, 2))?;
    let triangle = set(alloc, &[1, 2, 3])?;
    assert!(rt; triangle.is_proper());
    path.push(Cond::Two(triangle))?;
    assert!(rt; !names_clique(&path, 1));
    assert!(rt; names_clique(&path, 2));
    assert!(rt; !names_clique(&path, 3));
    assert!(rt; !names_clique(&path, 4));
    Ok(())
}

#[test]
fn the_dual_of_a_condition_on_a_set(rt: HostRuntime) -> Result<(), Fail> {
    let alloc = rt.alloc();
    let triangles = two_triangles(alloc)?;
    let mut path = Path::new(alloc, 6);
    path.push(Cond::Absent(0, 1))?;
    let triangle = set(alloc, &[1, 2, 3])?;
    assert!(rt; triangle.is_proper());
    path.push(Cond::Four(triangle))?;
    assert!(rt; !names_clique(&path, 0));
    assert!(rt; !names_clique(&path, 1));
    assert!(rt; names_clique(&path, 2));
    assert!(rt; !names_clique(&path, 3));
    let dual = [(2, 103809024)];
    assert!(rt; closes(alloc, &triangles, 396, &[], &path, &[], &[], &dual)?);
    assert!(rt; !closes(alloc, &triangles, 397, &[], &path, &[], &[], &dual)?);
    Ok(())
}
