//! What an answer is worth.
ghost use Rattle.std.specs.Prelude.{◌≡◌, ◌≤◌, ◌<◌, ◌^◌, length, map, pos, ◌-ℤ◌, ◌<ℤ◌, All, IfOk, IsTrue, ◌↔◌, false};
ghost use Rattle.lpcheck.specs.Sizes.{IsWithin};
ghost use Rattle.lpcheck.specs.Rows.{IsSmall, IsCheap, reduced};
ghost use Rattle.lpcheck.specs.Answers.{fault, gap, miss, IsGood};
ghost use Rattle.lpcheck.specs.Rests.{AreDuals, AreAtRest};
ghost use Rattle.lpcheck.specs.Cells.{table_of};

use crate::check::{cost_of, fault_of, limit_of};
use crate::reduced::reduced_costs;
use crate::rest::{lower_of, settle};
use crate::{Cells, Column, Row};
use std::alloc::{AllocError, Global};

/// What an answer is worth, in units.
#[derive(Clone, Copy, Debug)]
pub struct Judged {
    /// The fault is below 2^10, and the gap below 2^10 times one more than the greatest cost.
    pub is_good: bool,
    /// The greatest miss of a row or a box.
    pub fault: u128,
    /// The cost less the lower side.
    pub gap: i128,
}

fn less(a: u128, b: i128) -> i128
    requires a { a ≤ 2 ^ 86 }
    requires b { IsWithin (2 ^ 124) b }
    ensures { result ≡ pos a -ℤ b }
{
    a.cast_signed() - b
}

/// The cost less the lower side.
fn gap_of(rows: &[Row], cols: &[Column], xs: &[u32], ys: &[i64], rs: &[i128]) -> i128
    requires small { All IsSmall rows.now }
    requires few { length rows.now ≤ 4194304 }
    requires few_cols { length cols.now ≤ 4194304 }
    requires size { length xs.now ≡ length cols.now }
    requires duals { AreDuals rows.now ys.now }
    requires cheap { All IsCheap cols.now }
    requires costs { rs.now ≡ map (reduced rows.now ys.now) cols.now }
    ensures { result ≡ gap rows.now cols.now xs.now ys.now }
{
    less(cost_of(cols, xs), lower_of(rows, cols, ys, rs))
}

/// What some values and duals are worth. Where they are not good the duals are first moved until they are at rest, and
/// judged anew. On an error the duals are some duals.
pub fn judge(
    alloc: Global,
    table: &[Cells],
    rows: &[Row],
    cols: &[Column],
    xs: &[u32],
    ys: &mut [i64],
) -> Result<Judged, AllocError>
    requires table { table.now ≡ table_of rows.now cols.now }
    requires small { All IsSmall rows.now }
    requires few { length rows.now ≤ 4194304 }
    requires few_cols { length cols.now ≤ 4194304 }
    requires size { length xs.now ≡ length cols.now }
    requires duals { AreDuals rows.now ys.old }
    ensures duals { AreDuals rows.now ys.new }
    ensures good { IfOk result (λ j. IsTrue j.is_good ↔ IsGood rows.now cols.now xs.now ys.new) }
    ensures rests { IfOk result (λ j. j.is_good ≡ false → AreAtRest rows.now cols.now ys.new) }
    ensures fault { IfOk result (λ j. j.fault ≡ fault rows.now cols.now xs.now) }
    ensures small { IfOk result (λ j. j.fault ≤ 2 ^ 90) }
    ensures gap { IfOk result (λ j. j.gap ≡ gap rows.now cols.now xs.now ys.new) }
{
    let mut rs = reduced_costs(alloc, table, rows, cols, ys)?;
    let fault = fault_of(table, rows, cols, xs);
    let limit = limit_of(cols);
    let gap = gap_of(rows, cols, xs, ys, &rs);
    if fault < 1024 && gap < limit {
        return Ok(Judged {
            is_good: true,
            fault,
            gap,
        });
    }
    settle(alloc, table, rows, cols, ys, &mut rs)?;
    let gap = gap_of(rows, cols, xs, ys, &rs);
    Ok(Judged {
        is_good: fault < 1024 && gap < limit,
        fault,
        gap,
    })
}
