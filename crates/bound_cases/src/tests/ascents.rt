//! Duals that are raised: how good they are, and that they are at rest where they are not raised far.

use super::of_points;
use distx::Point;
use onetree::{ascend, held_karp, sized};
use std::alloc::Global;
use std::test::Fail;
use tspinst::Instance;

/// How many units one length is.
const SCALE: i128 = 1 << 20;

/// The least gain that counts, in units.
const GAIN: i128 = 1 << 10;

/// Numbers that look drawn.
#[derive(Drop)]
struct Draw {
    state: u64,
}

impl Draw {
    /// A number below a limit.
    fn below(&mut self, limit: u64) -> u64 {
        self.state = self
            .state
            .wrapping_mul(6_364_136_223_846_793_005)
            .wrapping_add(1_442_695_040_888_963_407);
        if limit == 0 {
            return 0;
        }
        (self.state >> 33) % limit
    }
}

/// A point of two coordinates, of 2^20 - 1 at most each.
fn point(x: u64, y: u64) -> Point {
    let across = x.min(1_048_575) as i32;
    let along = y.min(1_048_575) as i32;
    Point::new(across, along)
}

/// So many drawn cities in a square of this side.
fn drawn_cities(alloc: Global, seed: u64, n: u32, side: u64) -> Result<Instance, Fail> {
    let mut draw = Draw { state: seed };
    let mut points = Vec::new(alloc);
    for _ in 0..n {
        let x = draw.below(side);
        let y = draw.below(side);
        points.push(point(x, y))?;
    }
    of_points(alloc, &points)
}

/// The value of some duals, in units.
fn value_of(alloc: Global, instance: &Instance, duals: &[i64]) -> Result<i128, Fail> {
    let duals = sized(alloc, instance, duals)?;
    Ok(held_karp(alloc, instance, &duals)?)
}

/// Whether a change of the dual of a city by so much leaves a value below a goal.
fn stays_below(
    alloc: Global,
    instance: &Instance,
    duals: &[i64],
    city: usize,
    change: i64,
    goal: i128,
) -> Result<bool, Fail> {
    let mut changed = Vec::from_slice(alloc, duals)?;
    if let Some(dual) = changed.get_mut(city) {
        *dual = dual.wrapping_add(change);
    }
    Ok(value_of(alloc, instance, &changed)? < goal)
}

/// Whether no change of the dual of a city, up or down by a power of two from 2^10 to 2^40, reaches a goal.
fn is_still(
    alloc: Global,
    instance: &Instance,
    duals: &[i64],
    city: usize,
    goal: i128,
) -> Result<bool, Fail> {
    let mut change = 1i64 << 10;
    for _ in 10..=40 {
        let up = stays_below(alloc, instance, duals, city, change, goal)?;
        let down = stays_below(alloc, instance, duals, city, change.wrapping_neg(), goal)?;
        if !up || !down {
            return Ok(false);
        }
        change = change.wrapping_mul(2);
    }
    Ok(true)
}

/// How many cities have a dual whose change by a power of two, from 2^10 to 2^40, raises the value by 2^10 or more.
fn moving(alloc: Global, instance: &Instance, duals: &[i64]) -> Result<u32, Fail> {
    let goal = value_of(alloc, instance, duals)?.wrapping_add(GAIN);
    let mut moving = 0u32;
    for city in 0..duals.len() {
        if !is_still(alloc, instance, duals, city, goal)? {
            moving = moving.wrapping_add(1);
        }
    }
    Ok(moving)
}

/// By how many units so many steps raise the value.
fn gain(alloc: Global, instance: &Instance, steps: u32) -> Result<i128, Fail> {
    let start = value_of(alloc, instance, &[])?;
    let duals = ascend(alloc, instance, steps)?;
    let end = value_of(alloc, instance, &duals)?;
    Ok(end.wrapping_sub(start))
}

#[test]
fn no_steps_leave_all_duals_zero(rt: HostRuntime) -> Result<(), Fail> {
    let alloc = rt.alloc();
    let instance = drawn_cities(alloc, 1, 30, 1000)?;
    assert!(rt; ascend(alloc, &instance, 0)?.iter().all(|dual| *dual == 0));
    Ok(())
}

#[test]
fn steps_raise_the_value(rt: HostRuntime) -> Result<(), Fail> {
    let alloc = rt.alloc();
    for seed in 1..4u64 {
        let instance = drawn_cities(alloc, seed, 30, 1000)?;
        assert!(rt; 100 * SCALE < gain(alloc, &instance, 40)?);
    }
    Ok(())
}

#[test]
fn duals_that_are_not_raised_far_are_at_rest(rt: HostRuntime) -> Result<(), Fail> {
    let alloc = rt.alloc();
    for seed in 1..6u64 {
        let instance = drawn_cities(alloc, seed, 7, 8)?;
        let duals = ascend(alloc, &instance, 10_000)?;
        assert!(rt; gain(alloc, &instance, 10_000)? < 10_000 * GAIN);
        assert!(rt; moving(alloc, &instance, &duals)? == 0);
    }
    Ok(())
}
