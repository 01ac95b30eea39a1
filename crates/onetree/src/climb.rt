//! Duals by subgradient steps (Held and Karp 1971).
//!
//! A step takes a lightest one-tree and moves the dual of each city by how much its degree exceeds two: a city that the tree meets too
//! often becomes dearer, a leaf cheaper. Seven tenths of a move go by the degrees of this step and three by those before it, which
//! damps the zigzag (Volgenant and Jonker 1982). The step's length begins at a quarter of the mean edge and falls to 0 with the square
//! of the steps left. A step takes O(n^2) over flat arrays and no memory.
//!
//! Nothing here is relied on: what comes out are proposals, whose value is computed apart. So the arithmetic wraps.

use std::alloc::{AllocError, Global};
use tspinst::Instance;

/// How many bits of a unit stand behind the point of a length.
const SHIFT: u32 = 20;

/// The greatest size of a dual here: far above each distance in units, so that costs fit their type.
const MOST: i64 = 1 << 56;

/// A city outside the tree: its dual, and the nearest city inside with its cost.
#[derive(Clone, Copy, Debug)]
struct Outside {
    city: u32,
    near: u32,
    dual: i64,
    cost: i64,
}

/// What a climb keeps from step to step.
#[derive(Debug, Drop)]
struct Climb {
    duals: Vec<i64>,
    best: Vec<i64>,
    best_value: i128,
    degrees: Vec<i64>,
    before: Vec<i64>,
    outside: Vec<Outside>,
}

/// The best duals that so many subgradient steps from 0 come to. It takes O(n^2) a step.
pub fn subgradient_duals(
    alloc: Global,
    instance: &Instance,
    steps: u32,
) -> Result<Vec<i64>, AllocError> {
    let mut climb = Climb::start(alloc, instance)?;
    let first = climb.look(instance)?;
    let length = first_length(first, instance.n());
    for left in (0..steps).rev() {
        climb.step(length_left(length, left, steps));
        climb.look(instance)?;
    }
    Ok(climb.best)
}

/// How long the first step is: a quarter of the mean edge, and one length at least.
fn first_length(value: i128, n: u32) -> i64 {
    if n == 0 {
        return 0;
    }
    let mean = value / i128::from(n);
    (mean / 4).clamp(1 << SHIFT, 1 << 52) as i64
}

/// How long a step is with so many left: it falls with their square.
fn length_left(first: i64, left: u32, steps: u32) -> i64 {
    if steps == 0 {
        return 0;
    }
    let part = u64::from(left) * 1024 / u64::from(steps);
    let square = part.saturating_mul(part).min(1 << SHIFT) as i64;
    ((i128::from(first) * i128::from(square)) >> SHIFT).clamp(0, 1 << 52) as i64
}

impl Climb {
    /// All duals 0.
    fn start(alloc: Global, instance: &Instance) -> Result<Climb, AllocError> {
        let n = instance.n() as usize;
        Ok(Climb {
            duals: vec![in alloc; 0i64; n]?,
            best: vec![in alloc; 0i64; n]?,
            best_value: -(1 << 100),
            degrees: vec![in alloc; 2i64; n]?,
            before: vec![in alloc; 2i64; n]?,
            outside: Vec::with_capacity(alloc, n)?,
        })
    }

    /// Takes a lightest one-tree of the duals, and keeps the duals where they are the best so far. The value is about theirs.
    fn look(&mut self, instance: &Instance) -> Result<i128, AllocError> {
        swap_all(&mut self.before, &mut self.degrees);
        for degree in self.degrees.iter_mut() {
            *degree = 0;
        }
        let tree = self.span(instance)?;
        let value = tree
            .wrapping_add(self.close(instance))
            .wrapping_add(sum(&self.duals).wrapping_mul(2));
        if value > self.best_value {
            self.best_value = value;
            copy_all(&self.duals, &mut self.best);
        }
        Ok(value)
    }

    /// Grows a spanning tree of the cities but city 0 from city 1 (Prim 1957). Gives its weight.
    fn span(&mut self, instance: &Instance) -> Result<i128, AllocError> {
        self.outside.clear();
        for city in 2..instance.n() {
            let dual = at(&self.duals, city);
            self.outside.push(Outside {
                city,
                near: 1,
                dual,
                cost: i64::MAX,
            })?;
        }
        let mut weight = 0i128;
        let mut from = 1;
        for _ in 2..instance.n() {
            let place = nearest(instance, from, at(&self.duals, from), &mut self.outside);
            let Some(next) = take(&mut self.outside, place) else {
                return Ok(weight);
            };
            weight = weight.wrapping_add(i128::from(next.cost));
            count(&mut self.degrees, next.city);
            count(&mut self.degrees, next.near);
            from = next.city;
        }
        Ok(weight)
    }

    /// Joins city 0 to its two nearest. Gives the weight of both pairs.
    fn close(&mut self, instance: &Instance) -> i128 {
        let home = at(&self.duals, 0);
        let mut first = (i64::MAX, 0);
        let mut second = (i64::MAX, 0);
        for city in 1..instance.n() {
            let cost = cost(instance, 0, city, home, at(&self.duals, city));
            if cost < first.0 {
                second = first;
                first = (cost, city);
            } else if cost < second.0 {
                second = (cost, city);
            }
        }
        count(&mut self.degrees, 0);
        count(&mut self.degrees, 0);
        count(&mut self.degrees, first.1);
        count(&mut self.degrees, second.1);
        i128::from(first.0).wrapping_add(i128::from(second.0))
    }

    /// Moves each dual against what its city's degree exceeds two by, times the length.
    fn step(&mut self, length: i64) {
        for (dual, (now, before)) in self
            .duals
            .iter_mut()
            .zip(self.degrees.iter().zip(self.before.iter()))
        {
            let excess = now
                .wrapping_sub(2)
                .wrapping_mul(7)
                .wrapping_add(before.wrapping_sub(2).wrapping_mul(3));
            let move_by = length.wrapping_mul(excess) / 10;
            *dual = dual.wrapping_sub(move_by).clamp(-MOST, MOST);
        }
    }
}

/// The dual of a city.
#[inline]
fn at(duals: &[i64], city: u32) -> i64 {
    match duals.get(city as usize) {
        Some(dual) => *dual,
        None => 0,
    }
}

/// Counts a pair at a city.
#[inline]
fn count(degrees: &mut [i64], city: u32) {
    if let Some(degree) = degrees.get_mut(city as usize) {
        *degree = degree.wrapping_add(1);
    }
}

/// The cost of a pair: its distance in units less the duals of its cities.
#[inline]
fn cost(instance: &Instance, u: u32, v: u32, dual: i64, other: i64) -> i64 {
    let n = instance.n();
    if u < n && v < n {
        (i64::from(instance.d(u, v)) << SHIFT)
            .wrapping_sub(dual)
            .wrapping_sub(other)
    } else {
        i64::MAX
    }
}

/// Keeps the nearest inside cities where a city comes inside, and finds the place of the nearest city outside.
fn nearest(instance: &Instance, from: u32, dual: i64, outside: &mut [Outside]) -> usize {
    let mut least = i64::MAX;
    let mut place = 0;
    for (here, city) in outside.iter_mut().enumerate() {
        let cost = cost(instance, from, city.city, dual, city.dual);
        if cost <= city.cost {
            city.cost = cost;
            city.near = from;
        }
        if city.cost < least {
            least = city.cost;
            place = here;
        }
    }
    place
}

/// Takes the city at a place out; the last one comes to its place.
fn take(outside: &mut Vec<Outside>, place: usize) -> Option<Outside> {
    let last = outside.pop()?;
    match outside.get_mut(place) {
        Some(here) => {
            let taken = *here;
            *here = last;
            Some(taken)
        }
        None => Some(last),
    }
}

/// The sum of duals.
fn sum(duals: &[i64]) -> i128 {
    let mut total = 0i128;
    for dual in duals {
        total = total.wrapping_add(i128::from(*dual));
    }
    total
}

/// Copies a list over another of its length.
fn copy_all(from: &[i64], to: &mut [i64]) {
    for (old, new) in to.iter_mut().zip(from.iter()) {
        *old = *new;
    }
}

/// Changes two lists of one length into each other.
fn swap_all(a: &mut [i64], b: &mut [i64]) {
    for (x, y) in a.iter_mut().zip(b.iter_mut()) {
        let kept = *x;
        *x = *y;
        *y = kept;
    }
}
