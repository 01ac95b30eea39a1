//! An answer made of what the engine proposes.
ghost use Rattle.std.specs.Prelude.{◌≡◌, ◌≤◌, ◌<◌, ◌+◌, ◌^◌, ◌||◌, length, map, drop, take, All, IfOk};
ghost use Rattle.cyc.specs.Frac.{AreEntries};
ghost use Rattle.lpcheck.specs.Rows.{IsSmall};
ghost use Rattle.lpcheck.specs.Cells.{table_of};
ghost use Rattle.lpcheck.specs.Rests.{IsDual, AreDuals};
ghost use Rattle.lpcheck.specs.Added.{any_missed, any_negative};
ghost use Rattle.simplex.specs.Columns.{blank, unvalued, AreColumns, values_at, is_col};
ghost use Rattle.simplex.specs.Lp.{AreOf, IsAnswer, duals_in};

use crate::LpAnswer;
use crate::engine::Engine;
use cyc::{Entry, Frac};
use lpcheck::{Cells, Column, Row, Sense, falls_any, judge, misses_any, reduced_costs};
use std::alloc::{AllocError, Global};

/// A dual cut to its sign and size.
fn legal(sense: Sense, y: i64) -> i64
    ensures { IsDual sense result }
{
    match sense {
        Sense::Eq => y.clamp(-(1 << 62), 1 << 62),
        _ => y.clamp(0, 1 << 62),
    }
}

/// The engine's duals.
fn duals_of(alloc: Global, engine: &Engine, rows: &[Row]) -> Result<Vec<i64>, AllocError>
    ensures { IfOk result (λ ys. AreDuals rows.now ys.items) }
{
    let mut ys = Vec::with_capacity(alloc, rows.len())?;
    for at in 0..rows.len() {
        ys.push(legal(rows[at].sense, engine.dual(at)))?;
    }
    Ok(ys)
}

/// The engine's values.
fn entries_of(alloc: Global, engine: &Engine, cols: &[Column]) -> Result<Vec<Entry>, AllocError>
    ensures pairs { IfOk result (λ es. map unvalued es.items ≡ map blank cols.now) }
    ensures small { IfOk result (λ es. All (λ e. e.x ≤ 2 ^ 30) es.items) }
{
    let mut entries = Vec::with_capacity(alloc, cols.len())?;
    for at in 0..cols.len() {
        entries.push(Entry {
            u: cols[at].u,
            v: cols[at].v,
            x: engine.value(at).min(1 << 20),
        })?;
    }
    Ok(entries)
}

/// Values that some entries list.
fn frac_of(alloc: Global, n: u32, entries: Vec<Entry>) -> Result<Frac, AllocError>
    requires many { 3 ≤ n }
    requires few { n ≤ 2000 }
    ensures { IfOk result (λ x. x ≡ record { n = n; entries = entries.items }) }
{
    match Frac::new(alloc, n, entries) {
        Ok(x) => Ok(x),
        Err(_) => Err(AllocError),
    }
}

/// The values of the columns.
fn values_of(alloc: Global, x: &Frac, cols: &[Column]) -> Result<Vec<u32>, AllocError>
    requires { AreColumns x.now.n cols.now }
    ensures { IfOk result (λ xs. xs.items ≡ values_at x.now cols.now) }
{
    let mut xs = Vec::with_capacity(alloc, cols.len())?;
    for column in cols {
        xs.push(x.x(column.u, column.v))?;
    }
    Ok(xs)
}

/// The same duals, in 128 bits.
fn wide(alloc: Global, ys: &[i64]) -> Result<Vec<i128>, AllocError>
    ensures { IfOk result (λ zs. zs.items ≡ ys.now) }
{
    let mut zs = Vec::with_capacity(alloc, ys.len())?;
    for at in 0..ys.len() {
        zs.push(i128::from(ys[at]))?;
    }
    Ok(zs)
}

/// What the engine's values and duals are worth, the duals settled where they are not good, and those duals.
pub fn answer_of(
    alloc: Global,
    n: u32,
    engine: &Engine,
    table: &[Cells],
    rows: &[Row],
    cols: &[Column],
) -> Result<(LpAnswer, Vec<i64>), AllocError>
    requires many { 3 ≤ n }
    requires few { n ≤ 2000 }
    requires table { table.now ≡ table_of rows.now cols.now }
    requires small { All IsSmall rows.now }
    requires few_rows { length rows.now ≤ 4194304 }
    requires few_cols { length cols.now ≤ 4194304 }
    requires distinct { AreColumns n cols.now }
    ensures { IfOk result (λ r. IsAnswer n rows.now cols.now r.0 × (duals_in r.0 ≡ r.1.items)) }
{
    let x = frac_of(alloc, n, entries_of(alloc, engine, cols)?)?;
    let xs = values_of(alloc, &x, cols)?;
    let mut ys = duals_of(alloc, engine, rows)?;
    let judged = judge(alloc, table, rows, cols, &xs, &mut ys)?;
    let duals = wide(alloc, &ys)?;
    let gap = judged.gap;
    if judged.is_good {
        return Ok((LpAnswer::Solved { x, duals, gap }, ys));
    }
    let fault = judged.fault as i128;
    Ok((
        LpAnswer::Rough {
            x,
            duals,
            fault,
            gap,
        },
        ys,
    ))
}

/// Whether a row was added that the values miss by 2^10 units or more, or a column of negative reduced cost at the duals.
pub fn is_new_to(
    alloc: Global,
    x: &Frac,
    ys: &[i64],
    table: &[Cells],
    rows: &[Row],
    cols: &[Column],
    old_cols: usize,
) -> Result<bool, AllocError>
    requires table { table.now ≡ table_of rows.now cols.now }
    requires small { All IsSmall rows.now }
    requires few_rows { length rows.now ≤ 4194304 }
    requires few_cols { length cols.now ≤ 4194304 }
    requires distinct { AreColumns x.now.n cols.now }
    requires old_rows { length ys.now ≤ length rows.now }
    requires old_cols { old_cols ≤ length cols.now }
    requires duals { AreDuals (take (length ys.now) rows.now) ys.now }
    ensures { IfOk result (λ b. b ≡ (any_missed cols.now (values_at x.now cols.now) (drop (length ys.now) rows.now) || any_negative (take (length ys.now) rows.now) ys.now (drop old_cols cols.now))) }
{
    let old_rows = ys.len();
    let xs = values_of(alloc, x, cols)?;
    if misses_any(table, rows, cols, &xs, old_rows) {
        return Ok(true);
    }
    let rs = reduced_costs(alloc, &table[..old_rows], &rows[..old_rows], cols, ys)?;
    Ok(falls_any(&rs, old_cols))
}
