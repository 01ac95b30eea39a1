//! Whether an answer still stands for rows and columns that were added after it.
ghost use Rattle.std.specs.Prelude.{◌≡◌, ◌≤◌, ◌<◌, ◌+◌, ◌^◌, length, drop, map};
ghost use Rattle.lpcheck.specs.Rows.{reduced};
ghost use Rattle.lpcheck.specs.Cells.{table_of};
ghost use Rattle.lpcheck.specs.Added.{any_missed, any_negative, any_below};

use crate::check::miss_of;
use crate::{Cells, Column, Row};

/// Whether the values miss a row, from a place on, by 2^10 units or more.
pub fn misses_any(table: &[Cells], rows: &[Row], cols: &[Column], xs: &[u32], from: usize) -> bool
    requires table { table.now ≡ table_of rows.now cols.now }
    requires few_cols { length cols.now ≤ 4194304 }
    requires size { length xs.now ≡ length cols.now }
    requires place { from ≤ length rows.now }
    ensures { result ≡ any_missed cols.now xs.now (drop from rows.now) }
{
    for at in from..rows.len() {
        if miss_of(&rows[at], table[at].list(), cols, xs) >= 1024 {
            return true;
        }
    }
    false
}

/// Whether one of the numbers, from a place on, is negative.
pub fn falls_any(rs: &[i128], from: usize) -> bool
    requires { from ≤ length rs.now }
    ensures { result ≡ any_below (drop from rs.now) }
{
    for at in from..rs.len() {
        if rs[at] < 0 {
            return true;
        }
    }
    false
}
