//! Leaps of settling duals.
//!
//! Where a program has no feasible values, steps of one dual at a time can climb with no end in sight: duals that hold each other go up
//! by turns, each by as little as the others let it. So now and then all duals go on the way that they took, twice as far each time, as
//! long as that raises the lower side.
ghost use Rattle.std.specs.Prelude.{◌≡◌, ◌≤◌, ◌<◌, length, map, ◌≤ℤ◌, All, IfOk};
ghost use Rattle.lpcheck.specs.Rows.{reduced, lower_side, IsSmall, IsCheap};
ghost use Rattle.lpcheck.specs.Rests.{IsDual, AreDuals};
ghost use Rattle.lpcheck.specs.Cells.{table_of};

use crate::reduced::reduced_costs;
use crate::rest::lower_of;
use crate::{Cells, Column, Row, Sense};
use std::alloc::{AllocError, Global};

/// The greatest size of a dual.
const MOST: i64 = 1 << 62;

/// How often the way is doubled at most: from one unit to the greatest size.
const LEAPS: u32 = 62;

/// Goes on from the duals, away from others, twice as far each time, as long as the lower side rises. On an error the duals are some duals.
/// A leap costs O(cells).
pub fn leap(
    alloc: Global,
    table: &[Cells],
    rows: &[Row],
    cols: &[Column],
    from: &[i64],
    ys: &mut [i64],
    rs: &mut [i128],
) -> Result<(), AllocError>
    requires table { table.now ≡ table_of rows.now cols.now }
    requires small { All IsSmall rows.now }
    requires few { length rows.now ≤ 4194304 }
    requires few_cols { length cols.now ≤ 4194304 }
    requires cheap { All IsCheap cols.now }
    requires duals { AreDuals rows.now ys.old }
    requires costs { rs.old ≡ map (reduced rows.now ys.old) cols.now }
    ensures duals { AreDuals rows.now ys.new }
    ensures costs { rs.new ≡ map (reduced rows.now ys.new) cols.now }
    ensures better { lower_side rows.now cols.now ys.old ≤ℤ lower_side rows.now cols.now ys.new }
{
    for _ in 0..LEAPS {
        if !goes_on(alloc, table, rows, cols, from, ys, rs)? {
            return Ok(());
        }
    }
    Ok(())
}

/// Takes duals twice as far from others, if their lower side is greater: whether it is.
fn goes_on(
    alloc: Global,
    table: &[Cells],
    rows: &[Row],
    cols: &[Column],
    from: &[i64],
    ys: &mut [i64],
    rs: &mut [i128],
) -> Result<bool, AllocError>
    requires table { table.now ≡ table_of rows.now cols.now }
    requires small { All IsSmall rows.now }
    requires few { length rows.now ≤ 4194304 }
    requires few_cols { length cols.now ≤ 4194304 }
    requires cheap { All IsCheap cols.now }
    requires duals { AreDuals rows.now ys.old }
    requires costs { rs.old ≡ map (reduced rows.now ys.old) cols.now }
    ensures duals { AreDuals rows.now ys.new }
    ensures costs { rs.new ≡ map (reduced rows.now ys.new) cols.now }
    ensures better { lower_side rows.now cols.now ys.old ≤ℤ lower_side rows.now cols.now ys.new }
{
    let next = further(alloc, rows, from, ys)?;
    let costs = reduced_costs(alloc, table, rows, cols, &next)?;
    if lower_of(rows, cols, &next, &costs) <= lower_of(rows, cols, ys, rs) {
        return Ok(false);
    }
    ys.copy_from_slice(&next);
    rs.copy_from_slice(&costs);
    Ok(true)
}

/// Duals twice as far from others, within their signs and size.
fn further(alloc: Global, rows: &[Row], from: &[i64], ys: &[i64]) -> Result<Vec<i64>, AllocError>
    requires { AreDuals rows.now ys.now }
    ensures { IfOk result (λ next. AreDuals rows.now next.items) }
{
    let mut next = Vec::from_slice(alloc, ys)?;
    for at in 0..rows.len() {
        next[at] = within(rows[at].sense, beyond(from, at, next[at]));
    }
    Ok(next)
}

/// A dual twice as far from another.
fn beyond(from: &[i64], at: usize, y: i64) -> i64 {
    match from.get(at) {
        Some(other) => y.saturating_add(y.saturating_sub(*other)),
        None => y,
    }
}

/// A number within the sign and the size of a dual.
fn within(sense: Sense, y: i64) -> i64
    ensures { IsDual sense result }
{
    match sense {
        Sense::Eq => y.clamp(-MOST, MOST),
        _ => y.clamp(0, MOST),
    }
}
