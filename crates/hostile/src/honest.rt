//! Honest work: duals of the cities that are moved until each has about two pairs, and else what the plain worker does.
ghost use Rattle.std.specs.Prelude.{◌≡◌, ◌^◌, ◌<◌};
ghost use Rattle.worker.specs.Works.{BeginsAt};

use branchx::{Cond, Path};
use pricer::{Closing, Fit, bound, fits, needed};
use std::alloc::{AllocError, Global};
use tspinst::Instance;
use worker::{Work, level, work_plainly};

/// So often the duals are moved.
const MOVES: u32 = 30;

/// By how much they are moved at first, in units: about an eighth of the greatest distance. Each time it is a sixth less.
const FIRST_STEP: i64 = 1 << 37;

/// A pair that a path lets a tour use.
#[derive(Clone, Copy, Drop)]
struct Pair {
    one: u32,
    other: u32,
    cost: i64,
    is_used: bool,
}

/// Work on a node that is taken: it is closed, if balanced duals do that, and else worked on plainly.
pub(crate) fn honest_work(
    alloc: Global,
    instance: &Instance,
    path: &Path,
    best: u64,
    gap: u64,
) -> Result<Work, AllocError>
    requires cities { path.now.n ≡ instance.now.n }
    requires begins { BeginsAt instance.now path.now.conditions }
    requires short { best < 2 ^ 42 }
{
    let closing = balanced(alloc, instance, path)?;
    if matches!(fits(instance, path, &closing), Fit::Fits) {
        let bound = bound(instance, path, &closing);
        if bound > needed(level(best, gap)) {
            return Ok(Work::closed(None, closing, bound));
        }
    }
    work_plainly(alloc, instance, path, best, gap)
}

/// The closing of duals under which each city has about two pairs of negative reduced cost.
pub(crate) fn balanced(
    alloc: Global,
    instance: &Instance,
    path: &Path,
) -> Result<Closing, AllocError> {
    let pairs = pairs_of(alloc, instance, path)?;
    let mut duals = vec![in alloc; 0i64; instance.n() as usize]?;
    let mut step = FIRST_STEP;
    for _ in 0..MOVES {
        let degrees = degrees(alloc, &pairs, &duals)?;
        move_by(&mut duals, &degrees, step);
        step = step - step / 6;
    }
    Ok(Closing::new(duals, Vec::new(alloc), Vec::new(alloc)))
}

/// The pairs that a path lets a tour use, with their costs in units.
fn pairs_of(alloc: Global, instance: &Instance, path: &Path) -> Result<Vec<Pair>, AllocError> {
    let mut pairs = Vec::new(alloc);
    for other in 0..instance.n() {
        for one in 0..other {
            let said = said_of(path, one, other);
            if said != Some(false) {
                pairs.push(Pair {
                    one,
                    other,
                    cost: i64::from(instance.d(one, other)) << 20,
                    is_used: said == Some(true),
                })?;
            }
        }
    }
    Ok(pairs)
}

/// Whether a path says that two cities are joined, if it says of them at all.
fn said_of(path: &Path, one: u32, other: u32) -> Option<bool> {
    for cond in path.conditions() {
        if cond.decides(one, other) {
            return Some(!matches!(cond, Cond::Absent(_, _)));
        }
    }
    None
}

/// How many pairs each city has that are used, or whose reduced cost is negative.
fn degrees(alloc: Global, pairs: &[Pair], duals: &[i64]) -> Result<Vec<i64>, AllocError> {
    let mut degrees = vec![in alloc; 0i64; duals.len()]?;
    for pair in pairs {
        let reduced = pair
            .cost
            .wrapping_sub(dual_of(duals, pair.one))
            .wrapping_sub(dual_of(duals, pair.other));
        if pair.is_used || reduced < 0 {
            raise(&mut degrees, pair.one);
            raise(&mut degrees, pair.other);
        }
    }
    Ok(degrees)
}

fn dual_of(duals: &[i64], city: u32) -> i64 {
    match duals.get(city as usize) {
        Some(dual) => *dual,
        None => 0,
    }
}

fn raise(degrees: &mut [i64], city: u32) {
    if let Some(degree) = degrees.get_mut(city as usize) {
        *degree = degree.wrapping_add(1);
    }
}

/// Raises the duals of cities with fewer than two pairs, and lowers those of cities with more.
fn move_by(duals: &mut [i64], degrees: &[i64], step: i64) {
    for (dual, degree) in duals.iter_mut().zip(degrees) {
        let lacking = 2i64.wrapping_sub(*degree);
        *dual = dual.wrapping_add(lacking.wrapping_mul(step));
    }
}
