//! The sums of an answer: its fault, its cost and its lower side.
ghost use Rattle.std.specs.Prelude.{◌≡◌, ◌≤◌, ◌<◌, ◌+◌, ◌*◌, ◌^◌, length, max, pos, ◌*ℤ◌, All, slice_index_or};
ghost use Rattle.tspdef.specs.Bounds.{scale};
ghost use Rattle.lpcheck.specs.Sizes.{IsWithin};
ghost use Rattle.lpcheck.specs.Rows.{signed, worth, low, lower_side, reduced, IsSmall};
ghost use Rattle.lpcheck.specs.Cells.{cells_of, table_of, AreWithin, dot, lows};
ghost use Rattle.lpcheck.specs.Answers.{short, miss, box_miss, rows_fault, boxes_fault, fault, cost, dearest, limit};

use crate::numbers::{plus, signed, term, times_right};
use crate::{Cell, Cells, Column, Row, Sense};

fn row_worth(row: &Row, y: i64) -> i128
    requires { IsWithin (2 ^ 62) y }
    ensures value { result ≡ signed row.now.sense y *ℤ pos row.now.rhs }
    ensures size { IsWithin (2 ^ 95) result }
{
    times_right(signed(row.sense, y), row.rhs)
}

/// The sum of dual times right side.
pub fn worth_of(rows: &[Row], ys: &[i64]) -> i128
    requires few { length rows.now ≤ 4194304 }
    requires size { length ys.now ≡ length rows.now }
    requires sizes { All (IsWithin (2 ^ 62)) ys.now }
    ensures value { result ≡ worth rows.now ys.now }
    ensures size { IsWithin (2 ^ 118) result }
{
    let mut total: i128 = 0;
    for at in 0..rows.len() {
        total = plus(total, row_worth(&rows[at], ys[at]));
    }
    total
}

/// What the columns add to the lower side.
pub fn low_of(cols: &[Column], rs: &[i128]) -> i128
    requires few { length cols.now ≤ 4194304 }
    requires size { length rs.now ≡ length cols.now }
    requires sizes { All (IsWithin (2 ^ 100)) rs.now }
    ensures value { result ≡ lows cols.now rs.now }
    ensures size { IsWithin (2 ^ 122) result }
{
    let mut total: i128 = 0;
    for at in 0..cols.len() {
        total = plus(total, term(cols[at].must, rs[at]));
    }
    total
}

fn share(cell: &Cell, xs: &[u32]) -> u64
    requires { cell.now.column < length xs.now }
    ensures value { result ≡ slice_index_or xs.now cell.now.column 0 * cell.now.coef }
    ensures size { result ≤ 2 ^ 48 }
{
    u64::from(xs[cell.column as usize]) * u64::from(cell.coef)
}

/// The sum of value times coefficient.
fn activity_of(cells: &[Cell], xs: &[u32]) -> u128
    requires within { AreWithin (length xs.now) cells.now }
    requires few { length cells.now ≤ 4194304 }
    ensures value { result ≡ dot cells.now xs.now }
    ensures small { result ≤ 2 ^ 90 }
{
    let mut total: u128 = 0;
    for cell in cells {
        total += u128::from(share(cell, xs));
    }
    total
}

fn short_of(sense: Sense, a: u128, rhs: u32) -> u128
    requires { a ≤ 2 ^ 90 }
    ensures value { result ≡ short sense a (scale * rhs) }
    ensures small { result ≤ 2 ^ 90 }
{
    let b = (1 << 20) * u128::from(rhs);
    match sense {
        Sense::Eq => a.abs_diff(b),
        Sense::AtLeast => b.saturating_sub(a),
        Sense::AtMost => a.saturating_sub(b),
    }
}

/// How far the values are from meeting a row.
pub fn miss_of(row: &Row, cells: &[Cell], cols: &[Column], xs: &[u32]) -> u128
    requires cells { cells.now ≡ cells_of cols.now row.now }
    requires few_cols { length cols.now ≤ 4194304 }
    requires size { length xs.now ≡ length cols.now }
    ensures value { result ≡ miss cols.now xs.now row.now }
    ensures small { result ≤ 2 ^ 90 }
{
    short_of(row.sense, activity_of(cells, xs), row.rhs)
}

fn box_miss_of(must: bool, x: u32) -> u128
    ensures value { result ≡ box_miss must x }
    ensures small { result ≤ 2 ^ 90 }
{
    if must {
        u128::from(x.abs_diff(1 << 20))
    } else {
        u128::from(x.saturating_sub(1 << 20))
    }
}

fn rows_fault_of(table: &[Cells], rows: &[Row], cols: &[Column], xs: &[u32]) -> u128
    requires table { table.now ≡ table_of rows.now cols.now }
    requires few_cols { length cols.now ≤ 4194304 }
    requires size { length xs.now ≡ length cols.now }
    ensures value { result ≡ rows_fault cols.now xs.now rows.now }
    ensures small { result ≤ 2 ^ 90 }
{
    let mut most: u128 = 0;
    for at in 0..rows.len() {
        most = most.max(miss_of(&rows[at], table[at].list(), cols, xs));
    }
    most
}

fn boxes_fault_of(cols: &[Column], xs: &[u32]) -> u128
    requires { length xs.now ≡ length cols.now }
    ensures value { result ≡ boxes_fault cols.now xs.now }
    ensures small { result ≤ 2 ^ 90 }
{
    let mut most: u128 = 0;
    for at in 0..cols.len() {
        most = most.max(box_miss_of(cols[at].must, xs[at]));
    }
    most
}

/// The greatest miss of a row or a box.
pub fn fault_of(table: &[Cells], rows: &[Row], cols: &[Column], xs: &[u32]) -> u128
    requires table { table.now ≡ table_of rows.now cols.now }
    requires few_cols { length cols.now ≤ 4194304 }
    requires size { length xs.now ≡ length cols.now }
    ensures value { result ≡ fault rows.now cols.now xs.now }
    ensures small { result ≤ 2 ^ 90 }
{
    rows_fault_of(table, rows, cols, xs).max(boxes_fault_of(cols, xs))
}

fn column_cost(column: &Column, x: u32) -> u128
    ensures value { result ≡ column.now.cost * x }
    ensures most { result ≤ 2 ^ 64 }
{
    u128::from(column.cost) * u128::from(x)
}

/// The sum of cost times value.
pub fn cost_of(cols: &[Column], xs: &[u32]) -> u128
    requires few_cols { length cols.now ≤ 4194304 }
    requires size { length xs.now ≡ length cols.now }
    ensures value { result ≡ cost cols.now xs.now }
    ensures most { result ≤ 2 ^ 86 }
{
    let mut total: u128 = 0;
    for at in 0..cols.len() {
        total += column_cost(&cols[at], xs[at]);
    }
    total
}

fn dearest_of(cols: &[Column]) -> u32
    ensures { result ≡ dearest cols.now }
{
    let mut most: u32 = 0;
    for column in cols {
        most = most.max(column.cost);
    }
    most
}

/// A gap below this is narrow.
pub fn limit_of(cols: &[Column]) -> i128
    ensures { result ≡ pos (limit cols.now) }
{
    1024 * (1 + i128::from(dearest_of(cols)))
}
