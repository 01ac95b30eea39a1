//! Probes: what the children of a node would be worth.
//!
//! Of a few splits the best is taken, by what the relaxations of both children come to that each of them would make (strong branching:
//! Applegate, Bixby, Chvátal and Cook, "The Traveling Salesman Problem", 2006, chapter 14). A split by a pair is probed by some pivots on
//! a copy of the node's program, in which the pair's column is held at 0 and at one length; a split by a set of cities by programs of its
//! children, which begin with what the node leaves to them. The node's rows, columns, newest answer and rounds stay as they are, and
//! no answer rests on a probe.
ghost use Rattle.std.specs.Prelude.{◌≡◌, ℕ, ◌<◌, List, length, IfOk, IfSome};
ghost use Rattle.tspdef.specs.Paths.{Condition, MayFollow};
ghost use Rattle.branchx.specs.Branch.{IsSplit};
ghost use Rattle.branchx.specs.Cond.{condition_of};
ghost use Rattle.treebook.specs.Tree.{branch_of};
ghost use Rattle.worker.specs.Splits.{IsEdge};

use crate::starts::{Start, begin_from};
use branchx::{Branch, Cond, Path, decided};
use cyc::Frac;
use nodelp::NodeLp;
use simplex::{Column, Lp, LpAnswer, Trial};
use std::alloc::{AllocError, Global};
use tspinst::Instance;

/// How many pairs are probed at most.
const FEW: usize = 6;

/// How many pivots each child of a pair has.
const PIVOTS: u32 = 50;

/// At more conditions than so many nothing is probed.
const DEEP: usize = 1 << 20;

/// Half a length, in units.
const HALF: u32 = 0x8_0000;

/// A pair whose value is as far as that from a half is not probed.
const FAR: u32 = 0x7_b000;

/// How many units nearer to a half a pair counts for each doubling of its length.
const LONGER: i64 = 36_000;

/// More than any cost.
const NO_VALUES: i128 = 1 << 90;

/// What a probe is judged by: what the node's own values cost, and how much more closes a child, in units.
#[derive(Clone, Copy, Debug)]
pub(crate) struct Aim {
    pub(crate) cost: i128,
    pub(crate) gap: i128,
}

/// A split of a node with a path and a program: the first one, if that is by a set of cities, or by one of a few pairs, whichever is worth most by probes.
pub(crate) fn probed(
    alloc: Global,
    instance: &Instance,
    path: &Path,
    lp: &Lp,
    x: &Frac,
    start: &Start,
    gap: i128,
    first: Branch,
) -> Result<Branch, AllocError>
    requires cities { path.now.n ≡ instance.now.n }
    requires split { IsSplit path.now.n path.now.conditions first }
    requires edge { path.now.n < 6 → IsEdge (branch_of first) }
    ensures split { IfOk result (IsSplit path.now.n path.now.conditions) }
    ensures edge { IfOk result (λ b. path.now.n < 6 → IsEdge (branch_of b)) }
{
    if path.conditions().len() >= DEEP {
        return Ok(first);
    }
    let mut best = first;
    let mut most = worth_of_set(alloc, instance, path, x, start, gap, &best)?;
    let mut trial = lp.trial(alloc)?;
    for place in likely_columns(alloc, instance, lp, x)? {
        if let Some(other) = split_by(path, lp, place) {
            let worth = worth_of_pair(&mut trial, place, gap, most)?;
            if worth > most {
                best = other;
                most = worth;
            }
        }
    }
    Ok(best)
}

/// The split by the pair of a column, if it is an undecided pair of cities.
fn split_by(path: &Path, lp: &Lp, place: usize) -> Option<Branch>
    ensures split { IfSome result (IsSplit path.now.n path.now.conditions) }
    ensures edge { IfSome result (λ b. IsEdge (branch_of b)) }
{
    let column = lp.cols().get(place)?;
    let (u, v) = (column.u, column.v);
    if u < v && v < path.n() && !decided(path, u, v) {
        return Some(Branch::Edge(u, v));
    }
    None
}

/// What the split by a column's pair is worth. The second child is not looked at where that cannot be more than `most` any more.
fn worth_of_pair(
    trial: &mut Trial<'_>,
    place: usize,
    gap: i128,
    most: i128,
) -> Result<i128, AllocError> {
    let first = trial.gain(place, false, gap, PIVOTS)?.max(1);
    if together(first, gap) <= most {
        return Ok(most);
    }
    let second = trial.gain(place, true, gap, PIVOTS)?.max(1);
    Ok(together(first, second))
}

/// What a split by a set of cities is worth; less than any other where it is by a pair, which is probed with the others.
fn worth_of_set(
    alloc: Global,
    instance: &Instance,
    path: &Path,
    x: &Frac,
    start: &Start,
    gap: i128,
    branch: &Branch,
) -> Result<i128, AllocError>
    requires cities { path.now.n ≡ instance.now.n }
    requires few { length path.now.conditions < 1048576 }
    requires split { IsSplit path.now.n path.now.conditions branch.now }
{
    match branch {
        Branch::Edge(_, _) => Ok(-1),
        Branch::Clique(_) => {
            let aim = Aim {
                cost: cost_of(instance, x),
                gap,
            };
            worth_of(alloc, instance, path, start, aim, branch)
        }
    }
}

/// What a split is worth by what both children cost more, each up to what closes it: above all the lesser of both.
fn worth_of(
    alloc: Global,
    instance: &Instance,
    path: &Path,
    start: &Start,
    aim: Aim,
    branch: &Branch,
) -> Result<i128, AllocError>
    requires cities { path.now.n ≡ instance.now.n }
    requires few { length path.now.conditions < 1048576 }
    requires split { IsSplit path.now.n path.now.conditions branch.now }
{
    let first = gain_of(alloc, instance, path, start, aim, first_of(alloc, branch)?)?;
    let second = gain_of(alloc, instance, path, start, aim, second_of(alloc, branch)?)?;
    Ok(together(first, second))
}

/// What two gains are worth together.
fn together(a: i128, b: i128) -> i128 {
    a.min(b).saturating_mul(10).saturating_add(a.max(b))
}

/// What the child with a condition costs more than the node, up to what closes it, and at least a unit.
fn gain_of(
    alloc: Global,
    instance: &Instance,
    path: &Path,
    start: &Start,
    aim: Aim,
    cond: Cond,
) -> Result<i128, AllocError>
    requires cities { path.now.n ≡ instance.now.n }
    requires few { length path.now.conditions < 1048576 }
    requires follows { MayFollow path.now.n path.now.conditions (condition_of cond) }
{
    let mut child = path.copy(alloc)?;
    child.push(cond)?;
    let mut node = begin_from(alloc, instance, &child, start)?;
    node.solve(alloc)?;
    let more = solved_cost(instance, &node).saturating_sub(aim.cost);
    Ok(more.min(aim.gap).max(1))
}

/// The condition on the first child of a split.
fn first_of(alloc: Global, branch: &Branch) -> Result<Cond, AllocError>
    ensures { IfOk result (λ c. (n : ℕ) (path : List Condition) → IsSplit n path branch.now → MayFollow n path (condition_of c)) }
{
    match branch {
        Branch::Edge(u, v) => Ok(Cond::Absent(*u, *v)),
        Branch::Clique(set) => Ok(Cond::Two(set.copy(alloc)?)),
    }
}

/// The condition on the second child of a split.
fn second_of(alloc: Global, branch: &Branch) -> Result<Cond, AllocError>
    ensures { IfOk result (λ c. (n : ℕ) (path : List Condition) → IsSplit n path branch.now → MayFollow n path (condition_of c)) }
{
    match branch {
        Branch::Edge(u, v) => Ok(Cond::Present(*u, *v)),
        Branch::Clique(set) => Ok(Cond::Four(set.copy(alloc)?)),
    }
}

/// What the newest values of a program cost, in units; more than any cost where they are no answer, since there are none then.
fn solved_cost(instance: &Instance, node: &NodeLp) -> i128 {
    match node.lp().last() {
        Some(LpAnswer::Solved { x, .. }) => cost_of(instance, x),
        _ => NO_VALUES,
    }
}

/// What values cost, in units.
fn cost_of(instance: &Instance, x: &Frac) -> i128 {
    let n = instance.n();
    let mut cost: i128 = 0;
    for entry in x.entries() {
        if entry.u < n && entry.v < n {
            let part = u64::from(instance.d(entry.u, entry.v)).wrapping_mul(u64::from(entry.x));
            cost = cost.wrapping_add(i128::from(part));
        }
    }
    cost
}

/// The columns to probe: those whose values are nearest to a half and whose pairs are long, the first ones.
fn likely_columns(
    alloc: Global,
    instance: &Instance,
    lp: &Lp,
    x: &Frac,
) -> Result<Vec<usize>, AllocError> {
    let mut keys = Vec::new(alloc);
    for (place, column) in lp.cols().iter().enumerate() {
        let value = value_at(x, column);
        if value.abs_diff(HALF) < FAR {
            keys.push((dislike(instance, column, value), place))?;
        }
    }
    keys.sort_unstable();
    keys.truncate(FEW);
    let mut places = Vec::with_capacity(alloc, FEW)?;
    for (_, place) in keys {
        places.push(place)?;
    }
    Ok(places)
}

/// The value of a column, 0 where there are no such cities.
fn value_at(x: &Frac, column: &Column) -> u32 {
    if column.u < x.n() && column.v < x.n() {
        x.x(column.u, column.v)
    } else {
        0
    }
}

/// How little a pair is liked: by how far its value is from a half, less what its length counts.
fn dislike(instance: &Instance, column: &Column, value: u32) -> i64 {
    let n = instance.n();
    let mut length: u32 = 0;
    if column.u < n && column.v < n {
        length = instance.d(column.u, column.v);
    }
    let doublings = i64::from((u64::from(length) + 1).ilog2());
    i64::from(value.abs_diff(HALF)) - doublings * LONGER
}
