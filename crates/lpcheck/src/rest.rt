//! Duals at rest.
//!
//! From any duals, one row after the other takes the best step of its dual by a power of two, until no row has one that
//! raises the lower side by 2^10 units. Each step raises the lower side, which the sizes bound, so this ends; the reduced
//! costs of the columns are kept in step, so a visit of a row costs O(104 * cells of the row). Where a program has no
//! feasible values the lower side grows without a bound of its own: such duals serve as a ray. So that they come to their greatest size
//! soon, the duals leap now and then.
ghost use Rattle.std.specs.Prelude.{◌≡◌, ◌≤◌, ◌<◌, ◌^◌, length, map, pos, ◌+ℤ◌, ◌≤ℤ◌, All, IfOk, OnOk, IsTrue, false, slice_index_or};
ghost use Rattle.lpcheck.specs.declared.row.Row.{Row as TheRow};
ghost use Rattle.lpcheck.specs.Sizes.{IsWithin};
ghost use Rattle.lpcheck.specs.Rows.{reduced, lower_side, IsSmall, IsCheap};
ghost use Rattle.lpcheck.specs.Rests.{AreDuals, RowRests, AreAtRest};
ghost use Rattle.lpcheck.specs.Cells.{table_of};

use crate::check::{low_of, worth_of};
use crate::leap::leap;
use crate::numbers::plus;
use crate::place::Place;
use crate::reduced::lower;
use crate::step::{best_step, change, pieces_of};
use crate::{Cells, Column, Row};
use std::alloc::{AllocError, Global};

/// The lower side of the duals, by the reduced costs that they leave.
pub fn lower_of(rows: &[Row], cols: &[Column], ys: &[i64], rs: &[i128]) -> i128
    requires small { All IsSmall rows.now }
    requires few { length rows.now ≤ 4194304 }
    requires few_cols { length cols.now ≤ 4194304 }
    requires cheap { All IsCheap cols.now }
    requires duals { AreDuals rows.now ys.now }
    requires costs { rs.now ≡ map (reduced rows.now ys.now) cols.now }
    ensures value { result ≡ lower_side rows.now cols.now ys.now }
    ensures size { IsWithin (2 ^ 124) result }
{
    plus(worth_of(rows, ys), low_of(cols, rs))
}

/// One best step of the dual at a place: whether there was one.
fn improve_row(
    alloc: Global,
    table: &[Cells],
    rows: &[Row],
    cols: &[Column],
    ys: &mut [i64],
    rs: &mut [i128],
    at: usize,
) -> Result<bool, AllocError>
    requires table { table.now ≡ table_of rows.now cols.now }
    requires small { All IsSmall rows.now }
    requires few { length rows.now ≤ 4194304 }
    requires few_cols { length cols.now ≤ 4194304 }
    requires cheap { All IsCheap cols.now }
    requires place { at < length rows.now }
    requires duals { AreDuals rows.now ys.old }
    requires costs { rs.old ≡ map (reduced rows.now ys.old) cols.now }
    ensures duals { AreDuals rows.now ys.new }
    ensures costs { rs.new ≡ map (reduced rows.now ys.new) cols.now }
    ensures better { IfOk result (λ moved. IsTrue moved → (lower_side rows.now cols.now ys.old +ℤ pos 1024) ≤ℤ lower_side rows.now cols.now ys.new) }
    ensures same { IfOk result (λ moved. moved ≡ false → ys.new ≡ ys.old) }
    ensures rests { IfOk result (λ moved. moved ≡ false → (none : TheRow) → RowRests rows.now cols.now ys.old at (slice_index_or rows.now at none)) }
{
    let row = &rows[at];
    let y = ys[at];
    let cells = table[at].list();
    let pieces = pieces_of(alloc, cells, cols, rs)?;
    let place = Place {
        sense: row.sense,
        rhs: row.rhs,
        y,
    };
    let best = best_step(&place, &pieces);
    if best.gain < 1024 {
        return Ok(false);
    }
    lower(cells, change(row.sense, y, best.next), rs);
    ys[at] = best.next;
    Ok(true)
}

/// One step for each row: whether there was any.
fn sweep(
    alloc: Global,
    table: &[Cells],
    rows: &[Row],
    cols: &[Column],
    ys: &mut [i64],
    rs: &mut [i128],
) -> Result<bool, AllocError>
    requires table { table.now ≡ table_of rows.now cols.now }
    requires small { All IsSmall rows.now }
    requires few { length rows.now ≤ 4194304 }
    requires few_cols { length cols.now ≤ 4194304 }
    requires cheap { All IsCheap cols.now }
    requires duals { AreDuals rows.now ys.old }
    requires costs { rs.old ≡ map (reduced rows.now ys.old) cols.now }
    ensures duals { AreDuals rows.now ys.new }
    ensures costs { rs.new ≡ map (reduced rows.now ys.new) cols.now }
    ensures better { IfOk result (λ moved. IsTrue moved → (lower_side rows.now cols.now ys.old +ℤ pos 1024) ≤ℤ lower_side rows.now cols.now ys.new) }
    ensures rests { IfOk result (λ moved. moved ≡ false → AreAtRest rows.now cols.now ys.new) }
{
    let mut any = false;
    for at in 0..rows.len() {
        any |= improve_row(alloc, table, rows, cols, ys, rs, at)?;
    }
    Ok(any)
}

/// Moves the duals, one at a time, until they are at rest. After the first sweep, the second, the fourth and so on they leap along the way
/// that they took since the last leap, as far as that pays: on a long way what they do by turns evens out.
pub fn settle(
    alloc: Global,
    table: &[Cells],
    rows: &[Row],
    cols: &[Column],
    ys: &mut [i64],
    rs: &mut [i128],
) -> Result<(), AllocError>
    requires table { table.now ≡ table_of rows.now cols.now }
    requires small { All IsSmall rows.now }
    requires few { length rows.now ≤ 4194304 }
    requires few_cols { length cols.now ≤ 4194304 }
    requires cheap { All IsCheap cols.now }
    requires duals { AreDuals rows.now ys.old }
    requires costs { rs.old ≡ map (reduced rows.now ys.old) cols.now }
    ensures duals { AreDuals rows.now ys.new }
    ensures costs { rs.new ≡ map (reduced rows.now ys.new) cols.now }
    ensures rests { OnOk result (AreAtRest rows.now cols.now ys.new) }
{
    let mut from = Vec::from_slice(alloc, ys)?;
    let mut sweeps: u64 = 0;
    loop {
        let _low = lower_of(rows, cols, ys, rs);
        if !sweep(alloc, table, rows, cols, ys, rs)? {
            return Ok(());
        }
        sweeps = sweeps.saturating_add(1);
        if sweeps.is_power_of_two() {
            leap(alloc, table, rows, cols, &from, ys, rs)?;
            from = Vec::from_slice(alloc, ys)?;
        }
    }
}
