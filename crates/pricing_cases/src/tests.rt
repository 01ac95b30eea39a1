//! The worked values, and one call of each public function.

ghost use Rattle.std.specs.Prelude.{◌≡◌, ℕ, ◌^◌, ◌<◌, ◌≤◌, false, true, IsTrue, IfOk};
ghost use Rattle.tspdef.specs.Paths.{DecidesAll, is_decided, is_present};

use branchx::{Branch, Cond, Path, decided};
use cutform::Cut;
use cyc::CitySet;
use distx::{Kind, Point};
use pricer::{Closing, Fit, Priced, Pricing, Report, bound, fits, needed, ray, round};
use std::alloc::Global;
use std::process::Abort;
use std::sync::Arc;
use std::test::Fail;
use tspinst::{Instance, from_points};

/// Points (0, 0), (3, 0), (0, 4).
fn triangle(alloc: Global) -> Result<Instance, Fail> {
    let points = [Point::new(0, 0), Point::new(3, 0), Point::new(0, 4)];
    Ok(from_points(alloc, Kind::Euc, &points)?)
}

/// A square of side 10.
fn square(alloc: Global) -> Result<Instance, Fail> {
    let points = [
        Point::new(0, 0),
        Point::new(10, 0),
        Point::new(10, 10),
        Point::new(0, 10),
    ];
    Ok(from_points(alloc, Kind::Euc, &points)?)
}

/// Two triangles of side 1, far apart.
fn two_triangles(alloc: Global) -> Result<Instance, Fail> {
    let points = [
        Point::new(0, 0),
        Point::new(1, 0),
        Point::new(0, 1),
        Point::new(100, 0),
        Point::new(101, 0),
        Point::new(100, 1),
    ];
    Ok(from_points(alloc, Kind::Max, &points)?)
}

fn set(alloc: Global, n: u32, cities: &[u32]) -> Result<CitySet, Fail> {
    if n < 3 || n > 2000 {
        return Err("a bad number of cities".into());
    }
    Ok(CitySet::new(alloc, n, Vec::from_slice(alloc, cities)?)?)
}

fn subtour(alloc: Global, n: u32, cities: &[u32]) -> Result<Cut, Fail> {
    Ok(Cut::subtour(alloc, set(alloc, n, cities)?)?)
}

fn absent(path: &mut Path, u: u32, v: u32) -> Result<(), Fail> {
    if u >= v || v >= path.n() || decided(path, u, v) {
        return Err("not an open pair".into());
    }
    Ok(path.push(Cond::Absent(u, v))?)
}

fn present(path: &mut Path, u: u32, v: u32) -> Result<(), Fail> {
    if u >= v || v >= path.n() || decided(path, u, v) {
        return Err("not an open pair".into());
    }
    Ok(path.push(Cond::Present(u, v))?)
}

fn twice(path: &mut Path, set: CitySet) -> Result<(), Fail> {
    if set.n() != path.n() || !set.is_proper() {
        return Err("not a proper set".into());
    }
    Ok(path.push(Cond::Two(set))?)
}

/// Whether each pair of the city and a lower one is decided.
fn decides_row(path: &Path, v: u32) -> bool
    ensures { IsTrue result → (u : ℕ) → u < v → is_decided path.now.conditions u v ≡ true }
{
    for u in 0..v {
        if !decided(path, u, v) {
            return false;
        }
    }
    true
}

fn decides_all(path: &Path) -> bool
    ensures { IsTrue result → DecidesAll path.now.n path.now.conditions }
{
    for v in 0..path.n() {
        if !decides_row(path, v) {
            return false;
        }
    }
    true
}

/// The ray of a path that uses no pair.
fn ray_of_nothing(
    rt: &impl Abort,
    alloc: Global,
    instance: &Instance,
    path: &Path,
) -> Result<Closing, Fail>
    requires { (u v : ℕ) → is_present path.now.conditions u v ≡ false }
{
    assert_eq!(rt; path.n(), instance.n());
    assert!(rt; decides_all(path));
    Ok(ray(alloc, instance, path, 12)?)
}

/// The ray of a path, where the best has no length.
fn ray_from_zero(
    rt: &impl Abort,
    alloc: Global,
    instance: &Instance,
    path: &Path,
) -> Result<Closing, Fail> {
    assert_eq!(rt; path.n(), instance.n());
    assert!(rt; decides_all(path));
    Ok(ray(alloc, instance, path, 0)?)
}

fn bound_of(rt: &impl Abort, instance: &Instance, path: &Path, closing: &Closing) -> i128 {
    assert_eq!(rt; path.n(), instance.n());
    assert_eq!(rt; fits(instance, path, closing), Fit::Fits);
    bound(instance, path, closing)
}

#[test]
fn too_few_used_pairs_give_the_lowest_city_a_large_dual(rt: HostRuntime) -> Result<(), Fail> {
    let alloc = rt.alloc();
    let instance = triangle(alloc)?;
    let mut path = Path::new(alloc, 3);
    path.push(Cond::Absent(0, 1))?;
    path.push(Cond::Absent(0, 2))?;
    path.push(Cond::Absent(1, 2))?;
    let closing = ray_of_nothing(&rt, alloc, &instance, &path)?;
    assert_eq!(rt; closing.city(), [13_631_488, 0, 0].as_slice());
    assert_eq!(rt; bound_of(&rt, &instance, &path, &closing), 27_262_976);
    assert!(rt; bound_of(&rt, &instance, &path, &closing) > needed(12));
    Ok(())
}

#[test]
fn too_many_used_pairs_give_the_lowest_city_a_negative_dual(rt: HostRuntime) -> Result<(), Fail> {
    let alloc = rt.alloc();
    let points = [
        Point::new(0, 0),
        Point::new(1, 0),
        Point::new(0, 1),
        Point::new(1, 1),
    ];
    let instance = from_points(alloc, Kind::Max, &points)?;
    let mut path = Path::new(alloc, 4);
    for (u, v) in [(0, 1), (0, 2), (0, 3), (1, 2), (1, 3), (2, 3)] {
        present(&mut path, u, v)?;
    }
    let closing = ray_from_zero(&rt, alloc, &instance, &path)?;
    assert_eq!(rt; closing.city(), [-1_048_576, 0, 0, 0].as_slice());
    // six used pairs of length 1, three of them at city 0
    assert_eq!(rt;
        bound_of(&rt, &instance, &path, &closing),
        (6 + 3 - 2) << 20
    );
    Ok(())
}

#[test]
fn two_triangles_take_the_cut_through_city_0(rt: HostRuntime) -> Result<(), Fail> {
    let alloc = rt.alloc();
    let instance = two_triangles(alloc)?;
    let mut path = Path::new(alloc, 6);
    for u in 0..6 {
        for v in u + 1..6 {
            if (u < 3) == (v < 3) {
                present(&mut path, u, v)?;
            } else {
                absent(&mut path, u, v)?;
            }
        }
    }
    let closing = ray_from_zero(&rt, alloc, &instance, &path)?;
    assert_eq!(rt; closing.city(), [0; 6].as_slice());
    assert_eq!(rt; closing.cuts().len(), 1);
    assert!(rt; closing.cuts()[0].0 == subtour(alloc, 6, &[0, 1, 2])?);
    assert_eq!(rt; closing.cuts()[0].1, 1_048_576);
    // six used pairs of length 1, and the cut's right side
    assert_eq!(rt; bound_of(&rt, &instance, &path, &closing), 8 << 20);
    Ok(())
}

#[test]
fn a_tour_needs_no_dual(rt: HostRuntime) -> Result<(), Fail> {
    let alloc = rt.alloc();
    let instance = triangle(alloc)?;
    let mut path = Path::new(alloc, 3);
    for (u, v) in [(0, 1), (0, 2), (1, 2)] {
        present(&mut path, u, v)?;
    }
    let closing = ray_from_zero(&rt, alloc, &instance, &path)?;
    assert_eq!(rt; closing.city(), [0; 3].as_slice());
    assert_eq!(rt; closing.cuts().len(), 0);
    assert_eq!(rt; bound_of(&rt, &instance, &path, &closing), 12 << 20);
    Ok(())
}

#[test]
fn fixed_pairs_are_used_and_have_no_depth(rt: HostRuntime) -> Result<(), Fail> {
    let alloc = rt.alloc();
    let mut tour = Path::root(alloc, 3, &[(0, 1), (0, 2)])?;
    present(&mut tour, 1, 2)?;
    let instance = triangle(alloc)?;
    let closing = ray_from_zero(&rt, alloc, &instance, &tour)?;
    assert_eq!(rt; closing.city(), [0; 3].as_slice());
    assert_eq!(rt; bound_of(&rt, &instance, &tour, &closing), 12 << 20);
    let triangles = two_triangles(alloc)?;
    let mut path = Path::root(alloc, 6, &[(0, 1)])?;
    twice(&mut path, set(alloc, 6, &[0, 1, 2])?)?;
    let first = closing_with(alloc, Vec::new(alloc), &[(1, 5)])?;
    assert_eq!(rt; fits(&triangles, &path, &first), Fit::Fits);
    let second = closing_with(alloc, Vec::new(alloc), &[(2, 5)])?;
    assert_eq!(rt; fits(&triangles, &path, &second), Fit::Misfit(4));
    Ok(())
}

/// A closing of six cities with these cuts and clique duals.
fn closing_with(
    alloc: Global,
    cuts: Vec<(Cut, u64)>,
    conds: &[(u32, u64)],
) -> Result<Closing, Fail> {
    Ok(Closing::new(
        vec![in alloc; 0i64; 6]?,
        cuts,
        Vec::from_slice(alloc, conds)?,
    ))
}

/// A path with conditions on sets at depths 1 and 3, and on a pair at depth 2.
fn path_of_sets(alloc: Global) -> Result<Path, Fail> {
    let mut path = Path::new(alloc, 6);
    twice(&mut path, set(alloc, 6, &[0, 1])?)?;
    absent(&mut path, 0, 1)?;
    twice(&mut path, set(alloc, 6, &[0, 2])?)?;
    Ok(path)
}

/// A closing of two subtour cuts, the first with dual 1.
fn closing_of_two(
    alloc: Global,
    first: &[u32],
    second: &[u32],
    dual: u64,
) -> Result<Closing, Fail> {
    let mut cuts = Vec::new(alloc);
    cuts.push((subtour(alloc, 6, first)?, 1))?;
    cuts.push((subtour(alloc, 6, second)?, dual))?;
    closing_with(alloc, cuts, &[])
}

#[test]
fn cuts_have_duals_and_rise(rt: HostRuntime) -> Result<(), Fail> {
    let alloc = rt.alloc();
    let instance = two_triangles(alloc)?;
    let path = path_of_sets(alloc)?;
    for (first, second, dual, want) in [
        ([0, 1], [0, 2], 1, Fit::Fits),
        ([0, 1], [0, 2], 1 << 62, Fit::Fits),
        ([0, 1], [0, 2], 0, Fit::Misfit(2)),
        ([0, 1], [0, 2], (1 << 62) + 1, Fit::Misfit(2)),
        ([0, 1], [0, 1], 1, Fit::Misfit(3)),
        ([0, 2], [0, 1], 1, Fit::Misfit(3)),
    ] {
        let closing = closing_of_two(alloc, &first, &second, dual)?;
        assert_eq!(rt; fits(&instance, &path, &closing), want);
    }
    Ok(())
}

#[test]
fn depths_rise_and_name_conditions_on_sets(rt: HostRuntime) -> Result<(), Fail> {
    let alloc = rt.alloc();
    let instance = two_triangles(alloc)?;
    let path = path_of_sets(alloc)?;
    for (conds, want) in [
        ([(1, 1), (3, 1)], Fit::Fits),
        ([(1, 1), (3, 0)], Fit::Misfit(2)),
        ([(3, 1), (1, 1)], Fit::Misfit(4)),
        ([(1, 1), (1, 1)], Fit::Misfit(4)),
        ([(1, 1), (2, 1)], Fit::Misfit(4)),
        ([(1, 1), (4, 1)], Fit::Misfit(4)),
        ([(0, 1), (3, 1)], Fit::Misfit(4)),
    ] {
        let closing = closing_with(alloc, Vec::new(alloc), &conds)?;
        assert_eq!(rt; fits(&instance, &path, &closing), want);
    }
    Ok(())
}

#[test]
fn cities_and_cuts_are_those_of_the_instance(rt: HostRuntime) -> Result<(), Fail> {
    let alloc = rt.alloc();
    let instance = two_triangles(alloc)?;
    let path = Path::new(alloc, 6);
    let mut cuts = Vec::new(alloc);
    cuts.push((subtour(alloc, 7, &[0, 1])?, 1))?;
    let other = closing_with(alloc, cuts, &[])?;
    assert_eq!(rt; fits(&instance, &path, &other), Fit::Misfit(3));
    let short = Closing::new(vec![in alloc; 0i64; 5]?, Vec::new(alloc), Vec::new(alloc));
    assert_eq!(rt; fits(&instance, &path, &short), Fit::Misfit(1));
    Ok(())
}

/// The bound of two triangles, in lengths, under one odd cut of the first of them, whose dual is one length.
fn bound_of_odd(rt: &impl Abort, alloc: Global, pairs: &[(u32, u32)]) -> Result<i128, Fail> {
    let handle = set(alloc, 6, &[0, 1, 2])?;
    let cut = Cut::odd(alloc, handle, Vec::from_slice(alloc, pairs)?)?;
    let mut cuts = Vec::new(alloc);
    cuts.push((cut, 1 << 20))?;
    let closing = closing_with(alloc, cuts, &[])?;
    let path = Path::new(alloc, 6);
    Ok(bound_of(rt, &two_triangles(alloc)?, &path, &closing) >> 20)
}

#[test]
fn pairs_of_odd_cuts_count_at_both_ends(rt: HostRuntime) -> Result<(), Fail> {
    // each side of a triangle has length 1 and crosses two pairs; 10 - 6
    assert_eq!(rt;
        bound_of_odd(&rt, rt.alloc(), &[(0, 3), (1, 4), (2, 5)])?,
        4
    );
    // two sides cross three pairs, one none, and three cross two; 10 - 4 - 3
    assert_eq!(rt;
        bound_of_odd(&rt, rt.alloc(), &[(0, 3), (0, 4), (0, 5)])?,
        3
    );
    // two sides of either triangle cross one pair, which costs all that it has; 4 - 0
    assert_eq!(rt; bound_of_odd(&rt, rt.alloc(), &[(0, 3)])?, 4);
    Ok(())
}

#[test]
fn light_and_heavy_duals_of_a_cut_make_the_same_sum(rt: HostRuntime) -> Result<(), Fail> {
    let alloc = rt.alloc();
    let instance = two_triangles(alloc)?;
    let path = Path::new(alloc, 6);
    // a cut of one set weighs twice its dual, and up to 2^46 it is light
    for dual in [
        1u64 << 44,
        1 << 45,
        (1 << 45) + 1,
        1 << 50,
        (1 << 50) + 1,
        1 << 62,
    ] {
        let mut cuts = Vec::new(alloc);
        cuts.push((subtour(alloc, 6, &[0, 1, 2])?, dual))?;
        let closing = closing_with(alloc, cuts, &[])?;
        // the nine crossing pairs have length 900, each less the dual, of which the cut gives two back
        assert_eq!(rt;
            bound_of(&rt, &instance, &path, &closing),
            (900 << 20) - 7 * i128::from(dual)
        );
    }
    Ok(())
}

fn priced(
    rt: &impl Abort,
    alloc: Global,
    instance: Instance,
    path: Path,
    city: &[i64],
) -> Result<Pricing, Fail> {
    assert_eq!(rt; path.n(), instance.n());
    let closing = Closing::new(
        Vec::from_slice(alloc, city)?,
        Vec::new(alloc),
        Vec::new(alloc),
    );
    Ok(Priced::new(Arc::new(alloc, instance)?, path, closing))
}

#[test]
fn priced_closings_keep_their_bound(rt: HostRuntime) -> Result<(), Fail> {
    let alloc = rt.alloc();
    let mut path = Path::new(alloc, 3);
    absent(&mut path, 0, 1)?;
    // 3 and 4 and 5 long; the pair of length 3 is absent
    let Pricing::Priced(priced) = priced(&rt, alloc, triangle(alloc)?, path, &[0, 7, -2])? else {
        return Err("a misfit".into());
    };
    assert_eq!(rt; priced.bound(), 10);
    assert_eq!(rt; priced.instance().n(), 3);
    assert_eq!(rt; priced.path().conditions().len(), 1);
    assert_eq!(rt; priced.into_closing().city(), [0, 7, -2].as_slice());
    Ok(())
}

#[test]
fn what_does_not_fit_is_not_priced(rt: HostRuntime) -> Result<(), Fail> {
    let alloc = rt.alloc();
    for (city, want) in [([0, 0].as_slice(), 1), (&[0, 0, i64::MIN], 2)] {
        let Pricing::Misfit(least) = priced(
            &rt,
            alloc,
            triangle(alloc)?,
            Path::new(alloc, 3),
            city,
        )?
        else {
            return Err("no misfit".into());
        };
        assert_eq!(rt; least, want);
    }
    Ok(())
}

#[test]
fn too_many_cuts_are_a_misfit(rt: HostRuntime) -> Result<(), Fail> {
    let alloc = rt.alloc();
    let instance = two_triangles(alloc)?;
    let path = Path::new(alloc, 6);
    let cut = subtour(alloc, 6, &[0, 1])?;
    let mut cuts = Vec::new(alloc);
    for _ in 0..4097 {
        cuts.push((cut.copy(alloc)?, 0))?;
    }
    let closing = closing_with(alloc, cuts, &[])?;
    assert_eq!(rt; fits(&instance, &path, &closing), Fit::Misfit(1));
    Ok(())
}

/// The closing of duals of cities alone.
fn round_cities(alloc: Global, n: u32, city: &[i128]) -> Result<Closing, Fail> {
    Ok(round(alloc, n, city, Vec::new(alloc), Vec::new(alloc))?)
}

#[test]
fn rounded_duals_of_a_square_close_it(rt: HostRuntime) -> Result<(), Fail> {
    let alloc = rt.alloc();
    let instance = square(alloc)?;
    let path = Path::new(alloc, 4);
    // a few units below half a side, as a linear program leaves them
    let city = [5_242_880, 5_242_879, 5_242_880, 5_242_878];
    let closing = round_cities(alloc, 4, &city)?;
    assert_eq!(rt; bound_of(&rt, &instance, &path, &closing), 41_943_034);
    assert!(rt; 41_943_034 >= needed(40) + 1);
    assert_eq!(rt; needed(40) + 1, 40_894_465);
    Ok(())
}

#[test]
fn rounding_cuts_large_city_duals(rt: HostRuntime) -> Result<(), Fail> {
    let alloc = rt.alloc();
    let most = 1i64 << 62;
    for (dual, want) in [
        (i128::MIN, -most),
        (-(1 << 64), -most),
        (-(1 << 62) - 1, -most),
        (-(1 << 62), -most),
        (-7, -7),
        (0, 0),
        ((1 << 62) - 1, most - 1),
        (1 << 62, most),
        ((1 << 62) + 1, most),
        (1 << 64, most),
        (i128::MAX, most),
    ] {
        let closing = round_cities(alloc, 1, &[dual])?;
        assert_eq!(rt; closing.city(), [want].as_slice());
    }
    Ok(())
}

#[test]
fn rounding_gives_each_city_a_dual(rt: HostRuntime) -> Result<(), Fail> {
    let alloc = rt.alloc();
    let city = [4, -5, 6];
    let same = round_cities(alloc, 3, &city)?;
    assert_eq!(rt; same.city(), [4, -5, 6].as_slice());
    let many = round_cities(alloc, 2, &city)?;
    assert_eq!(rt; many.city(), [4, -5].as_slice());
    let few = round_cities(alloc, 5, &city)?;
    assert_eq!(rt; few.city(), [4, -5, 6, 0, 0].as_slice());
    Ok(())
}

#[test]
fn rounding_keeps_positive_duals_of_sets(rt: HostRuntime) -> Result<(), Fail> {
    let alloc = rt.alloc();
    let large = (1 << 62) + 1;
    let mut cuts = Vec::new(alloc);
    for (cities, dual) in [
        ([0, 4], 0),
        ([0, 2], 7),
        ([0, 3], -1),
        ([1, 2], large),
        ([1, 3], i128::MIN),
        ([0, 1], 1 << 62),
    ] {
        cuts.push((subtour(alloc, 6, &cities)?, dual))?;
    }
    let conds = [(3, 0), (9, large), (2, -1), (1, i128::MAX), (4, 1)];
    let closing = round(alloc, 6, &[], cuts, Vec::from_slice(alloc, &conds)?)?;
    let mut want = Vec::new(alloc);
    for (cities, dual) in [([0, 2], 7), ([1, 2], 1 << 62), ([0, 1], 1 << 62)] {
        want.push((subtour(alloc, 6, &cities)?, dual))?;
    }
    assert!(rt; closing.cuts() == want.as_slice());
    assert_eq!(rt;
        closing.conds(),
        [(9, 1 << 62), (1, 1 << 62), (4, 1)].as_slice()
    );
    Ok(())
}

#[test]
fn rounding_keeps_the_first_4096_duals_of_sets(rt: HostRuntime) -> Result<(), Fail> {
    let alloc = rt.alloc();
    let cut = subtour(alloc, 6, &[0, 1])?;
    let mut cuts = Vec::new(alloc);
    let mut conds = Vec::new(alloc);
    // what is left out takes no place
    cuts.push((cut.copy(alloc)?, -1))?;
    conds.push((4098, 0))?;
    for k in 1..4098 {
        cuts.push((cut.copy(alloc)?, i128::from(k)))?;
        conds.push((k, i128::from(k)))?;
    }
    let closing = round(alloc, 6, &[], cuts, conds)?;
    assert_eq!(rt; closing.cuts().len(), 4096);
    assert_eq!(rt; closing.cuts()[0].1, 1);
    assert_eq!(rt; closing.cuts()[4095].1, 4096);
    assert_eq!(rt; closing.conds().len(), 4096);
    assert_eq!(rt; closing.conds()[0], (1, 1));
    assert_eq!(rt; closing.conds()[4095], (4096, 4096));
    // counts and sizes fit, the cuts do not rise
    assert_eq!(rt;
        fits(&two_triangles(alloc)?, &Path::new(alloc, 6), &closing),
        Fit::Misfit(3)
    );
    Ok(())
}

#[test]
fn copies_are_equal(rt: HostRuntime) -> Result<(), Fail> {
    let alloc = rt.alloc();
    let mut cuts = Vec::new(alloc);
    cuts.push((subtour(alloc, 6, &[0, 1])?, 7))?;
    let closing = closing_with(alloc, cuts, &[(1, 5)])?;
    let report = Report::Closed(closing.copy(alloc)?);
    let Report::Closed(copy) = report.copy(alloc)? else {
        return Err("a split".into());
    };
    assert_eq!(rt; copy.city(), closing.city());
    assert_eq!(rt; copy.conds(), [(1, 5)].as_slice());
    assert!(rt; copy.cuts() == closing.cuts());
    let (city, cuts, conds) = copy.into_parts();
    assert_eq!(rt; (city.len(), cuts.len(), conds.len()), (6, 1, 1));
    let split = Report::Split(Branch::Edge(0, 2));
    let Report::Split(copy) = split.copy(alloc)? else {
        return Err("a closing".into());
    };
    assert!(rt; copy == Branch::Edge(0, 2));
    Ok(())
}
