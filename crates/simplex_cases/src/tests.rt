//! Worked programs, programs with no values, degenerate ones, and drawn ones against a plain flow.
use branchx::Path;
use cyc::CitySet;
use distx::{Kind, Point};
use pricer::{Fit, bound, fits, round};
use simplex::{Lp, LpAnswer, Row, Sense};
use std::alloc::{AllocError, Global};
use std::test::Fail;
use tspinst::from_points;

mod plain;

use plain::Flow;

/// A program of no rows over n cities.
fn empty(alloc: Global, n: u32) -> Result<Lp, AllocError> {
    if !(3..=2000).contains(&n) {
        return Err(AllocError);
    }
    Lp::new(alloc, n, Vec::new(alloc))
}

fn set(alloc: Global, n: u32, cities: &[u32]) -> Result<CitySet, AllocError> {
    if n < 3 || n > 2000 {
        return Err(AllocError);
    }
    match CitySet::new(alloc, n, Vec::from_slice(alloc, cities)?) {
        Ok(set) => Ok(set),
        Err(_) => Err(AllocError),
    }
}

fn put_row(lp: &mut Lp, sense: Sense, rhs: u32, sets: Vec<CitySet>) -> Result<(), AllocError> {
    if sets.len() <= 4096 && lp.rows().len() < 4_194_304 {
        lp.add_row(Row { sense, rhs, sets })?;
    }
    Ok(())
}

/// A row of one set.
fn put_set(
    alloc: Global,
    lp: &mut Lp,
    sense: Sense,
    rhs: u32,
    cities: &[u32],
) -> Result<(), AllocError> {
    let mut sets = Vec::new(alloc);
    sets.push(set(alloc, lp.n(), cities)?)?;
    put_row(lp, sense, rhs, sets)
}

fn put_col(lp: &mut Lp, u: u32, v: u32, cost: u32, must: bool) -> Result<(), AllocError> {
    if u < v && v < lp.n() && !lp.has_col(u, v) {
        lp.add_col(u, v, cost, must)?;
    }
    Ok(())
}

/// The program of the degree rows.
fn degrees(alloc: Global, n: u32) -> Result<Lp, AllocError> {
    let mut lp = empty(alloc, n)?;
    for city in 0..n {
        put_set(alloc, &mut lp, Sense::Eq, 2, &[city])?;
    }
    Ok(lp)
}

/// The degree rows, and the pairs with their costs in the order of their lesser city.
fn complete(alloc: Global, n: u32, costs: &[u32]) -> Result<Lp, AllocError> {
    let mut lp = degrees(alloc, n)?;
    let mut next = costs.iter();
    for u in 0..n {
        for v in 0..n {
            if u < v {
                let cost = next.next().copied().unwrap_or(0);
                put_col(&mut lp, u, v, cost, false)?;
            }
        }
    }
    Ok(lp)
}

/// The cost of the newest answer, in units, less its gap: the duals' lower side.
fn lower_side(lp: &Lp) -> i128 {
    match lp.last() {
        Some(LpAnswer::Solved { gap, .. }) | Some(LpAnswer::Rough { gap, .. }) => {
            (cost_of(lp) as i128).wrapping_sub(*gap)
        }
        None => i128::MIN,
    }
}

/// The cost of the newest values, in units.
fn cost_of(lp: &Lp) -> u64 {
    let mut total: u64 = 0;
    if let Some(LpAnswer::Solved { x, .. }) | Some(LpAnswer::Rough { x, .. }) = lp.last() {
        for column in lp.cols() {
            if column.u < x.n() && column.v < x.n() {
                let part = u64::from(column.cost).wrapping_mul(u64::from(x.x(column.u, column.v)));
                total = total.wrapping_add(part);
            }
        }
    }
    total
}

fn is_solved(lp: &Lp) -> bool {
    matches!(lp.last(), Some(LpAnswer::Solved { .. }))
}

/// Whether the newest answer is Solved, and its cost is that many lengths up to its gap's limit.
fn costs(lp: &Lp, lengths: u64, dearest: u64) -> bool {
    let whole = lengths << 20;
    let limit = 1024u64.wrapping_mul(dearest.wrapping_add(1));
    is_solved(lp) && cost_of(lp).abs_diff(whole) <= limit
}

const SQUARE: [u32; 6] = [10, 14, 10, 10, 14, 10];

const GROUPS: [u32; 15] = [1, 1, 10, 10, 10, 1, 10, 10, 10, 10, 10, 10, 1, 1, 1];

const PRISM: [u32; 15] = [1, 1, 0, 100, 100, 1, 100, 0, 100, 100, 100, 0, 1, 1, 1];

#[test]
fn square_is_solved(rt: HostRuntime) -> Result<(), Fail> {
    let alloc = rt.alloc();
    let mut lp = complete(alloc, 4, &SQUARE)?;
    assert!(rt; lp.last().is_none());
    assert_eq!(rt; lp.rounds(), 0);
    lp.solve(alloc, 1000)?;
    assert!(rt; is_solved(&lp));
    assert!(rt; cost_of(&lp) < 41_958_400);
    lp.solve(alloc, 1000)?;
    assert_eq!(rt; lp.rounds(), 1);
    Ok(())
}

#[test]
fn the_duals_of_the_square_close_it(rt: HostRuntime) -> Result<(), Fail> {
    let alloc = rt.alloc();
    let points = [
        Point::new(0, 0),
        Point::new(10, 0),
        Point::new(10, 10),
        Point::new(0, 10),
    ];
    let instance = from_points(alloc, Kind::Euc, &points)?;
    let mut lp = complete(alloc, 4, &SQUARE)?;
    lp.solve(alloc, 1000)?;
    assert!(rt; is_solved(&lp));
    if let Some(LpAnswer::Solved { duals, .. }) = lp.last() {
        let path = Path::new(alloc, 4);
        let closing = round(alloc, 4, duals, Vec::new(alloc), Vec::new(alloc))?;
        assert_eq!(rt; path.n(), instance.n());
        assert_eq!(rt; fits(&instance, &path, &closing), Fit::Fits);
        assert!(rt; bound(&instance, &path, &closing) >= 40_894_465);
    }
    Ok(())
}

#[test]
fn no_columns_are_rough_with_high_duals(rt: HostRuntime) -> Result<(), Fail> {
    let alloc = rt.alloc();
    let mut lp = degrees(alloc, 4)?;
    lp.solve(alloc, 1000)?;
    match lp.last() {
        Some(LpAnswer::Rough { duals, fault, .. }) => {
            assert_eq!(rt; *fault, 2_097_152);
            assert_eq!(rt; duals.len(), 4);
            assert!(rt; duals.iter().all(|y| *y > (1 << 62) - 1024));
        }
        _ => assert!(rt; false),
    }
    Ok(())
}

#[test]
fn a_subtour_row_raises_the_groups_at_once(rt: HostRuntime) -> Result<(), Fail> {
    let alloc = rt.alloc();
    let mut lp = complete(alloc, 6, &GROUPS)?;
    lp.solve(alloc, 1000)?;
    assert!(rt; costs(&lp, 6, 10));
    put_set(alloc, &mut lp, Sense::AtLeast, 2, &[0, 1, 2])?;
    lp.solve(alloc, 1000)?;
    assert!(rt; costs(&lp, 24, 10));
    assert_eq!(rt; lp.rounds(), 2);
    put_set(alloc, &mut lp, Sense::AtLeast, 2, &[0, 1, 2])?;
    lp.solve(alloc, 1000)?;
    assert!(rt; costs(&lp, 24, 10));
    assert_eq!(rt; lp.rounds(), 2);
    Ok(())
}

#[test]
fn a_comb_raises_the_prism(rt: HostRuntime) -> Result<(), Fail> {
    let alloc = rt.alloc();
    let mut lp = complete(alloc, 6, &PRISM)?;
    lp.solve(alloc, 1000)?;
    assert!(rt; costs(&lp, 3, 100));
    let mut sets = Vec::new(alloc);
    sets.push(set(alloc, 6, &[0, 1, 2])?)?;
    sets.push(set(alloc, 6, &[0, 3])?)?;
    sets.push(set(alloc, 6, &[1, 4])?)?;
    sets.push(set(alloc, 6, &[2, 5])?)?;
    put_row(&mut lp, Sense::AtLeast, 10, sets)?;
    lp.solve(alloc, 1000)?;
    assert!(rt; costs(&lp, 4, 100));
    Ok(())
}

#[test]
fn an_at_most_row_keeps_a_pair_out(rt: HostRuntime) -> Result<(), Fail> {
    let alloc = rt.alloc();
    let mut lp = complete(alloc, 6, &GROUPS)?;
    put_set(alloc, &mut lp, Sense::AtMost, 4, &[0, 1, 2])?;
    put_set(alloc, &mut lp, Sense::AtLeast, 4, &[0, 1, 2])?;
    lp.solve(alloc, 1000)?;
    assert!(rt; costs(&lp, 42, 10));
    let mut capped = complete(alloc, 6, &GROUPS)?;
    put_set(alloc, &mut capped, Sense::AtLeast, 2, &[0, 1, 2])?;
    put_set(alloc, &mut capped, Sense::AtMost, 1, &[0, 1, 2])?;
    capped.solve(alloc, 1000)?;
    assert!(rt; !is_solved(&capped));
    assert!(rt; lower_side(&capped) > 1 << 50);
    Ok(())
}

#[test]
fn programs_with_no_values_have_a_high_lower_side(rt: HostRuntime) -> Result<(), Fail> {
    let alloc = rt.alloc();
    let mut lp = degrees(alloc, 5)?;
    for v in 1..4 {
        put_col(&mut lp, 0, v, 7, true)?;
    }
    for v in 2..5 {
        put_col(&mut lp, 1, v, 7, false)?;
    }
    lp.solve(alloc, 1000)?;
    assert!(rt; !is_solved(&lp));
    assert!(rt; lower_side(&lp) > 1 << 50);
    let mut bare = degrees(alloc, 5)?;
    put_col(&mut bare, 0, 1, 7, false)?;
    bare.solve(alloc, 1000)?;
    assert!(rt; !is_solved(&bare));
    assert!(rt; lower_side(&bare) > 1 << 50);
    Ok(())
}

#[test]
fn costs_that_are_equal_or_large_are_solved(rt: HostRuntime) -> Result<(), Fail> {
    let alloc = rt.alloc();
    let most: u32 = 1_073_741_823;
    for cost in [0, 1, 1000, most] {
        let mut lp = complete(alloc, 12, &[cost; 66])?;
        lp.solve(alloc, 1000)?;
        assert!(rt; costs(&lp, 12 * u64::from(cost), u64::from(cost)));
    }
    Ok(())
}

/// The next of some numbers that look drawn.
fn next(state: u64) -> u64 {
    state
        .wrapping_mul(6_364_136_223_846_793_005)
        .wrapping_add(1_442_695_040_888_963_407)
}

/// Costs of the pairs of n cities, from 0 to 1,000, in the order of their lesser city.
fn draw(alloc: Global, n: u32, seed: u64) -> Result<Vec<u32>, AllocError> {
    let mut state = seed;
    let mut costs = Vec::new(alloc);
    for u in 0..n {
        for _ in u..n {
            state = next(state);
            costs.push(((state >> 33) % 1001) as u32)?;
        }
    }
    Ok(costs)
}

/// The same costs, by rows.
fn by_rows(alloc: Global, n: u32, costs: &[u32]) -> Result<Vec<i64>, AllocError> {
    let size = n as usize;
    let mut table: Vec<i64> = vec![in alloc; 0; size.saturating_mul(size)]?;
    let mut next = costs.iter();
    for u in 0..size {
        for v in 0..size {
            if u < v {
                let cost = i64::from(next.next().copied().unwrap_or(0));
                for place in [
                    u.wrapping_mul(size).wrapping_add(v),
                    v.wrapping_mul(size).wrapping_add(u),
                ] {
                    if let Some(to) = table.get_mut(place) {
                        *to = cost;
                    }
                }
            }
        }
    }
    Ok(table)
}

#[test]
fn drawn_programs_have_the_values_of_a_plain_flow(rt: HostRuntime) -> Result<(), Fail> {
    let alloc = rt.alloc();
    for seed in 0..300u32 {
        let n = (seed % 5).wrapping_add(6);
        let drawn = draw(alloc, n, u64::from(seed))?;
        let mut flow = Flow::new(alloc, n as usize, by_rows(alloc, n, &drawn)?)?;
        let twice = flow.least();
        assert!(rt; flow.is_whole());
        let mut lp = complete(alloc, n, &drawn)?;
        lp.solve(alloc, 1000)?;
        assert!(rt; is_solved(&lp));
        let units = (twice.unsigned_abs()) << 19;
        assert!(rt; cost_of(&lp).abs_diff(units) <= 1024 * 1001);
    }
    Ok(())
}

/// The pairs of a grid of 40 by 50 cities, to the right, below, and across.
fn grid(alloc: Global) -> Result<Lp, AllocError> {
    let mut lp = degrees(alloc, 2000)?;
    for city in 0..2000u32 {
        let column = city % 50;
        if column < 49 {
            put_col(&mut lp, city, city.wrapping_add(1), 10, false)?;
            put_col(&mut lp, city, city.wrapping_add(51), 14, false)?;
        }
        if column > 0 {
            put_col(&mut lp, city, city.wrapping_add(49), 14, false)?;
        }
        put_col(&mut lp, city, city.wrapping_add(50), 10, false)?;
    }
    Ok(lp)
}

#[test]
fn a_grid_is_solved(rt: HostRuntime) -> Result<(), Fail> {
    let alloc = rt.alloc();
    let mut lp = grid(alloc)?;
    lp.solve(alloc, 50_000)?;
    assert!(rt; costs(&lp, 20_000, 14));
    Ok(())
}

/// The program of the degree rows over pairs with costs, in which a pair must be there, or is left out.
fn held(
    alloc: Global,
    n: u32,
    costs: &[u32],
    pair: (u32, u32),
    must: bool,
) -> Result<Lp, AllocError> {
    let mut lp = degrees(alloc, n)?;
    let mut next = costs.iter();
    for u in 0..n {
        for v in 0..n {
            if u < v {
                let cost = next.next().copied().unwrap_or(0);
                if must || (u, v) != pair {
                    put_col(&mut lp, u, v, cost, (u, v) == pair)?;
                }
            }
        }
    }
    Ok(lp)
}

/// The place and the pair of the first column whose value is half a length, up to an eighth.
fn half(lp: &Lp) -> Option<(usize, (u32, u32))> {
    let Some(LpAnswer::Solved { x, .. }) = lp.last() else {
        return None;
    };
    for (place, column) in lp.cols().iter().enumerate() {
        let (u, v) = (column.u, column.v);
        if u < x.n() && v < x.n() && x.x(u, v).abs_diff(1 << 19) < 1 << 17 {
            return Some((place, (u, v)));
        }
    }
    None
}

#[test]
fn a_trial_costs_what_a_program_with_the_column_held_costs(rt: HostRuntime) -> Result<(), Fail> {
    let alloc = rt.alloc();
    let most: i128 = 1 << 40;
    let mut tried: u32 = 0;
    for seed in 0..300u32 {
        let n = (seed % 5).wrapping_add(6);
        let drawn = draw(alloc, n, u64::from(seed))?;
        let mut lp = complete(alloc, n, &drawn)?;
        lp.solve(alloc, 1000)?;
        if let Some((place, pair)) = half(&lp) {
            let before = i128::from(cost_of(&lp));
            let mut trial = lp.trial(alloc)?;
            for at_one in [false, true, false] {
                let mut other = held(alloc, n, &drawn, pair, at_one)?;
                other.solve(alloc, 1000)?;
                assert!(rt; is_solved(&other));
                let more = i128::from(cost_of(&other)).wrapping_sub(before);
                let gain = trial.gain(place, at_one, most, 200)?;
                assert!(rt; gain.abs_diff(more) <= 4096 * 1001);
                assert_eq!(rt; trial.gain(place, at_one, 5, 200)?, gain.min(5));
            }
            tried = tried.wrapping_add(1);
        }
    }
    assert!(rt; tried >= 10);
    Ok(())
}

#[test]
fn a_trial_that_leaves_no_values_costs_the_most(rt: HostRuntime) -> Result<(), Fail> {
    let alloc = rt.alloc();
    let mut lp = complete(alloc, 3, &[1, 1, 1])?;
    lp.solve(alloc, 1000)?;
    let mut trial = lp.trial(alloc)?;
    for place in 0..3usize {
        if lp.is_basic(place) {
            assert_eq!(rt; trial.gain(place, false, 77, 200)?, 77);
        }
    }
    assert!(rt; lp.is_basic(0) || lp.is_basic(1) || lp.is_basic(2));
    Ok(())
}
