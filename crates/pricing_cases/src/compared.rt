//! Bounds against the plain sum, on closings that a small generator makes.

ghost use Rattle.std.specs.Prelude.{◌^◌, ◌<◌};

use branchx::{Cond, Path, decided};
use cutform::Cut;
use cyc::CitySet;
use distx::{Kind, Point};
use pricer::{Closing, Fit, bound, fits};
use std::alloc::Global;
use std::process::Abort;
use std::test::Fail;
use tspinst::{Instance, from_points};
use tspplain::values as plain;

/// Numbers that look random (a linear congruence modulo 2^64, its high bits).
#[derive(Drop)]
struct Numbers {
    state: u64,
}

impl Numbers {
    fn next(&mut self) -> u64
        ensures { result < 2 ^ 32 }
    {
        self.state = self
            .state
            .wrapping_mul(6_364_136_223_846_793_005)
            .wrapping_add(1_442_695_040_888_963_407);
        self.state >> 32
    }

    fn below(&mut self, most: u32) -> u32 {
        match u64::from(most) {
            0 => 0,
            most => (self.next() % most) as u32,
        }
    }

    /// A dual of a city, of either sign: of a size up to 2^39, or up to 2^59.
    fn city_dual(&mut self, large: bool) -> i64 {
        if large {
            (self.next() as i64 - (1 << 31)) * (1 << 28)
        } else {
            (self.next() as i64 - (1 << 31)) * 256
        }
    }

    /// A dual of a set.
    fn dual(&mut self) -> u64 {
        self.next() + 1
    }
}

/// One case: a node and a closing for it, and the same as plain values.
#[derive(Drop)]
struct Case {
    instance: Instance,
    path: Path,
    closing: Closing,
    plain_instance: plain::Instance,
    plain_path: Vec<plain::Condition>,
    plain_closing: plain::Closing,
}

fn points(alloc: Global, numbers: &mut Numbers, n: u32) -> Result<Vec<Point>, Fail> {
    let mut points = Vec::new(alloc);
    for _ in 0..n {
        let x = numbers.below(1000) % 1000;
        let y = numbers.below(1000) % 1000;
        points.push(Point::new(x as i32, y as i32))?;
    }
    Ok(points)
}

fn instance(alloc: Global, numbers: &mut Numbers, n: u32) -> Result<Instance, Fail> {
    let points = points(alloc, numbers, n)?;
    if points.len() < 3 || points.len() > 2000 {
        return Err("a bad number of points".into());
    }
    Ok(from_points(alloc, Kind::Euc, &points)?)
}

fn plain_instance(alloc: Global, instance: &Instance) -> Result<plain::Instance, Fail> {
    let n = instance.n();
    let mut table = Vec::new(alloc);
    for u in 0..n {
        for v in 0..n {
            table.push(instance.d(u, v))?;
        }
    }
    let fixed = Vec::from_slice(alloc, instance.fixed())?;
    Ok(plain::Instance { n, table, fixed })
}

/// Each city, or not.
fn some_cities(alloc: Global, numbers: &mut Numbers, n: u32) -> Result<Vec<u32>, Fail> {
    let mut cities = Vec::new(alloc);
    for city in 0..n {
        if numbers.below(2) == 0 {
            cities.push(city)?;
        }
    }
    Ok(cities)
}

/// A set of the cities.
fn set_of(alloc: Global, n: u32, cities: &[u32]) -> Result<CitySet, Fail> {
    if n < 3 || n > 2000 {
        return Err("a bad number of cities".into());
    }
    Ok(CitySet::new(alloc, n, Vec::from_slice(alloc, cities)?)?)
}

/// Adds a condition on a pair, if it is open.
fn add_pair(
    path: &mut Path,
    plain_path: &mut Vec<plain::Condition>,
    u: u32,
    v: u32,
    is_used: bool,
) -> Result<(), Fail> {
    if u >= v || v >= path.n() || decided(path, u, v) {
        return Ok(());
    }
    if is_used {
        path.push(Cond::Present(u, v))?;
        plain_path.push(plain::Condition::Present(u, v))?;
    } else {
        path.push(Cond::Absent(u, v))?;
        plain_path.push(plain::Condition::Absent(u, v))?;
    }
    Ok(())
}

/// Adds a condition on a set, if it is proper, and a dual for it.
fn add_set(
    alloc: Global,
    numbers: &mut Numbers,
    path: &mut Path,
    plain_path: &mut Vec<plain::Condition>,
    conds: &mut Vec<(u32, u64)>,
    is_crossed_twice: bool,
) -> Result<(), Fail> {
    let cities = some_cities(alloc, numbers, path.n())?;
    let set = set_of(alloc, path.n(), &cities)?;
    if !set.is_proper() || set.n() != path.n() {
        return Ok(());
    }
    if is_crossed_twice {
        path.push(Cond::Two(set))?;
        plain_path.push(plain::Condition::Two(cities))?;
    } else {
        path.push(Cond::Four(set))?;
        plain_path.push(plain::Condition::Four(cities))?;
    }
    if numbers.below(4) != 0 {
        let depth = (plain_path.len() & 0xffff_ffff) as u32;
        conds.push((depth, numbers.dual()))?;
    }
    Ok(())
}

/// Some conditions of each of the four kinds, in any order.
fn conditions(
    alloc: Global,
    numbers: &mut Numbers,
    path: &mut Path,
    plain_path: &mut Vec<plain::Condition>,
) -> Result<Vec<(u32, u64)>, Fail> {
    let n = path.n();
    let mut conds = Vec::new(alloc);
    for _ in 0..numbers.below(3 * n.min(20)) {
        match numbers.below(6) {
            0 => add_set(alloc, numbers, path, plain_path, &mut conds, true)?,
            1 => add_set(alloc, numbers, path, plain_path, &mut conds, false)?,
            kind => {
                let u = numbers.below(n);
                let v = numbers.below(n);
                add_pair(path, plain_path, u, v, kind < 4)?;
            }
        }
    }
    Ok(conds)
}

/// A comb of six of the cities, from the first one on: a handle of three and three teeth.
fn comb(alloc: Global, n: u32, first: u32) -> Result<(Cut, plain::Cut), Fail> {
    let first = first % (n.max(6) - 5);
    let handle = [first, first + 1, first + 2];
    let mut teeth = Vec::new(alloc);
    let mut plain_teeth = Vec::new(alloc);
    for k in 0..3 {
        let tooth = [first + k, first + k + 3];
        teeth.push(set_of(alloc, n, &tooth)?)?;
        plain_teeth.push(Vec::from_slice(alloc, &tooth)?)?;
    }
    let cut = Cut::comb(alloc, set_of(alloc, n, &handle)?, teeth)?;
    let plain = plain::Cut::Comb(Vec::from_slice(alloc, &handle)?, plain_teeth);
    Ok((cut, plain))
}

/// An odd cut of six of the cities, from the first one on: a handle of three, and some of its pairs with the others, of which
/// several may share a city.
fn odd(
    alloc: Global,
    numbers: &mut Numbers,
    n: u32,
    first: u32,
) -> Result<(Cut, plain::Cut), Fail> {
    let first = first % (n.max(6) - 5);
    let handle = [first, first + 1, first + 2];
    let mut pairs = Vec::new(alloc);
    for u in &handle {
        for v in first + 3..first + 6 {
            if numbers.below(2) == 0 {
                pairs.push((*u, v))?;
            }
        }
    }
    if pairs.len() % 2 == 0 && pairs.pop().is_none() {
        pairs.push((first, first + 3))?;
    }
    let plain = plain::Cut::Odd(
        Vec::from_slice(alloc, &handle)?,
        Vec::from_slice(alloc, &pairs)?,
    );
    let cut = Cut::odd(alloc, set_of(alloc, n, &handle)?, pairs)?;
    Ok((cut, plain))
}

/// A subtour cut of some cities, a comb, and an odd cut.
fn cuts(
    alloc: Global,
    numbers: &mut Numbers,
    n: u32,
) -> Result<(Vec<(Cut, u64)>, Vec<plain::CutDual>), Fail> {
    let mut cuts = Vec::new(alloc);
    let mut plain_cuts = Vec::new(alloc);
    let cities = some_cities(alloc, numbers, n)?;
    if let Ok(cut) = Cut::subtour(alloc, set_of(alloc, n, &cities)?) {
        let dual = numbers.dual();
        cuts.push((cut, dual))?;
        plain_cuts.push(plain::CutDual {
            cut: plain::Cut::Subtour(cities),
            dual,
        })?;
    }
    if numbers.below(3) != 0 {
        let (cut, plain) = comb(alloc, n, numbers.below(n))?;
        let dual = numbers.dual();
        cuts.push((cut, dual))?;
        plain_cuts.push(plain::CutDual { cut: plain, dual })?;
    }
    if numbers.below(3) != 0 {
        let first = numbers.below(n);
        let (cut, plain) = odd(alloc, numbers, n, first)?;
        let dual = numbers.dual();
        cuts.push((cut, dual))?;
        plain_cuts.push(plain::CutDual { cut: plain, dual })?;
    }
    Ok((cuts, plain_cuts))
}

fn city_duals(alloc: Global, numbers: &mut Numbers, n: u32) -> Result<Vec<i64>, Fail> {
    let mut city = Vec::new(alloc);
    let large = numbers.below(2) == 1;
    for _ in 0..n {
        city.push(numbers.city_dual(large))?;
    }
    Ok(city)
}

fn plain_conds(alloc: Global, conds: &[(u32, u64)]) -> Result<Vec<plain::CliqueDual>, Fail> {
    let mut all = Vec::new(alloc);
    for (depth, dual) in conds {
        all.push(plain::CliqueDual {
            depth: *depth,
            dual: *dual,
        })?;
    }
    Ok(all)
}

fn make_case(alloc: Global, numbers: &mut Numbers, n: u32) -> Result<Case, Fail> {
    let instance = instance(alloc, numbers, n)?;
    let mut path = Path::new(alloc, n);
    let mut plain_path = Vec::new(alloc);
    let conds = conditions(alloc, numbers, &mut path, &mut plain_path)?;
    let (cuts, plain_cuts) = cuts(alloc, numbers, n)?;
    let city = city_duals(alloc, numbers, n)?;
    let plain_closing = plain::Closing {
        city: Vec::from_slice(alloc, &city)?,
        cuts: plain_cuts,
        conds: plain_conds(alloc, &conds)?,
    };
    Ok(Case {
        plain_instance: plain_instance(alloc, &instance)?,
        instance,
        path,
        closing: Closing::new(city, cuts, conds),
        plain_path,
        plain_closing,
    })
}

fn fast_bound(rt: &impl Abort, case: &Case) -> i128 {
    assert_eq!(rt; case.path.n(), case.instance.n());
    assert_eq!(rt; fits(&case.instance, &case.path, &case.closing), Fit::Fits);
    bound(&case.instance, &case.path, &case.closing)
}

fn plain_bound(rt: &impl Abort, case: &Case) -> i128 {
    let n = case.plain_instance.n;
    assert!(rt; n <= 2000);
    assert!(rt; tspplain::closings::is_closing(n, &case.plain_path, &case.plain_closing));
    tspplain::bounds::bound(&case.plain_instance, &case.plain_path, &case.plain_closing)
}

#[test]
fn bounds_are_the_plain_sums(rt: HostRuntime) -> Result<(), Fail> {
    let mut numbers = Numbers { state: 1 };
    for k in 0..200 {
        let n = 6 + k % 7;
        let case = make_case(rt.alloc(), &mut numbers, n)?;
        assert_eq!(rt; fast_bound(&rt, &case), plain_bound(&rt, &case), "case {k}");
    }
    Ok(())
}
