//! Reduced costs of all columns, kept in step with the duals.
ghost use Rattle.std.specs.Prelude.{◌≡◌, ◌≤◌, ◌<◌, ◌*◌, ◌^◌, [], length, map, pos, All, IfOk, OnOk};
ghost use Rattle.tspdef.specs.Bounds.{scale};
ghost use Rattle.lpcheck.specs.Sizes.{IsWithin};
ghost use Rattle.lpcheck.specs.Rows.{IsSmall, IsCheap, reduced};
ghost use Rattle.lpcheck.specs.Cells.{table_of, AreWithin, lowered};

use crate::numbers::{in_units, minus, signed, times_coef};
use crate::{Cell, Cells, Column, Row};
use std::alloc::{AllocError, Global};

/// Takes d times its coefficient off the number of each cell's column.
pub fn lower(cells: &[Cell], d: i64, rs: &mut [i128])
    requires within { AreWithin (length rs.old) cells.now }
    requires few { length cells.now ≤ 4194304 }
    requires size { All (IsWithin (2 ^ 100)) rs.old }
    ensures { rs.new ≡ lowered d cells.now rs.old }
{
    for cell in cells {
        let place = cell.column as usize;
        rs[place] = minus(rs[place], times_coef(d, cell.coef));
    }
}

/// The costs of the columns, in units.
fn costs_of(alloc: Global, cols: &[Column]) -> Result<Vec<i128>, AllocError>
    ensures costs { IfOk result (λ rs. rs.items ≡ map (reduced [] []) cols.now) }
    ensures cheap { IfOk result (λ _. All IsCheap cols.now) }
{
    let mut rs = Vec::with_capacity(alloc, cols.len())?;
    for column in cols {
        rs.push(in_units(column.cost))?;
    }
    Ok(rs)
}

/// Takes what the duals of all rows take off the costs.
fn lower_by_rows(table: &[Cells], rows: &[Row], cols: &[Column], ys: &[i64], rs: &mut [i128])
    requires table { table.now ≡ table_of rows.now cols.now }
    requires small { All IsSmall rows.now }
    requires few { length rows.now ≤ 4194304 }
    requires few_cols { length cols.now ≤ 4194304 }
    requires cheap { All IsCheap cols.now }
    requires size { length ys.now ≡ length rows.now }
    requires sizes { All (IsWithin (2 ^ 62)) ys.now }
    requires costs { rs.old ≡ map (reduced [] []) cols.now }
    ensures { rs.new ≡ map (reduced rows.now ys.now) cols.now }
{
    for at in 0..rows.len() {
        lower(table[at].list(), signed(rows[at].sense, ys[at]), rs);
    }
}

/// The reduced costs of the columns.
pub fn reduced_costs(
    alloc: Global,
    table: &[Cells],
    rows: &[Row],
    cols: &[Column],
    ys: &[i64],
) -> Result<Vec<i128>, AllocError>
    requires table { table.now ≡ table_of rows.now cols.now }
    requires small { All IsSmall rows.now }
    requires few { length rows.now ≤ 4194304 }
    requires few_cols { length cols.now ≤ 4194304 }
    requires size { length ys.now ≡ length rows.now }
    requires sizes { All (IsWithin (2 ^ 62)) ys.now }
    ensures costs { IfOk result (λ rs. rs.items ≡ map (reduced rows.now ys.now) cols.now) }
    ensures cheap { IfOk result (λ _. All IsCheap cols.now) }
{
    let mut rs = costs_of(alloc, cols)?;
    lower_by_rows(table, rows, cols, ys, &mut rs);
    Ok(rs)
}
