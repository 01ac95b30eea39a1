//! Duals of programs that have no values.
ghost use Rattle.std.specs.Prelude.{◌≡◌, length, All, IfOk};
ghost use Rattle.lpcheck.specs.Rests.{IsDual, AreDuals};
ghost use Rattle.lpcheck.specs.Rows.{IsSmall};

use cyc::CitySet;
use lpcheck::{Column, Row, Sense, grow_table, judge};
use std::alloc::{AllocError, Global};
use std::test::Fail;

/// A row of the pairs that cross some of four cities.
fn row(alloc: Global, sense: Sense, rhs: u32, cities: &[u32]) -> Result<Row, Fail>
    ensures { IfOk result IsSmall }
{
    let mut sets = Vec::new(alloc);
    sets.push(CitySet::new(alloc, 4, Vec::from_slice(alloc, cities)?)?)?;
    Ok(Row { sense, rhs, sets })
}

/// A set that at most two pairs cross, and at least four.
fn contradicting(alloc: Global) -> Result<Vec<Row>, Fail>
    ensures small { IfOk result (λ rows. All IsSmall rows.items) }
    ensures two { IfOk result (λ rows. length rows.items ≡ 2) }
{
    let mut rows = Vec::new(alloc);
    rows.push(row(alloc, Sense::AtMost, 2, &[0, 1])?)?;
    rows.push(row(alloc, Sense::AtLeast, 4, &[0, 1])?)?;
    Ok(rows)
}

/// Two pairs at each city, and four that cross a set of two of them.
fn crossed(alloc: Global) -> Result<Vec<Row>, Fail>
    ensures small { IfOk result (λ rows. All IsSmall rows.items) }
    ensures five { IfOk result (λ rows. length rows.items ≡ 5) }
{
    let mut rows = Vec::new(alloc);
    rows.push(row(alloc, Sense::Eq, 2, &[0])?)?;
    rows.push(row(alloc, Sense::Eq, 2, &[1])?)?;
    rows.push(row(alloc, Sense::Eq, 2, &[2])?)?;
    rows.push(row(alloc, Sense::Eq, 2, &[3])?)?;
    rows.push(row(alloc, Sense::AtLeast, 4, &[0, 2])?)?;
    Ok(rows)
}

/// The dual that counts for nothing.
fn none(sense: Sense) -> i64
    ensures { IsDual sense result }
{
    match sense {
        Sense::Eq => 0,
        _ => 0,
    }
}

/// No dual of any row.
fn zeros(alloc: Global, rows: &[Row]) -> Result<Vec<i64>, AllocError>
    ensures { IfOk result (λ ys. AreDuals rows.now ys.items) }
{
    let mut ys = Vec::with_capacity(alloc, rows.len())?;
    for at in 0..rows.len() {
        ys.push(none(rows[at].sense))?;
    }
    Ok(ys)
}

fn column(u: u32, v: u32, cost: u32) -> Column {
    Column {
        u,
        v,
        cost,
        must: false,
    }
}

#[test]
fn duals_of_rows_that_contradict_each_other_come_to_rest_at_once(
    rt: HostRuntime,
) -> Result<(), Fail> {
    let alloc = rt.alloc();
    let rows = contradicting(alloc)?;
    let cols = [
        column(0, 2, 1),
        column(0, 3, 2),
        column(1, 2, 3),
        column(1, 3, 4),
    ];
    let table = grow_table(alloc, Vec::new(alloc), &rows, &cols, 0)?;
    let mut ys = zeros(alloc, &rows)?;
    let judged = judge(alloc, &table, &rows, &cols, &[0; 4], &mut ys)?;
    assert!(rt; !judged.is_good);
    assert!(rt; judged.gap < -(1 << 62));
    Ok(())
}

/// A pair is used that leaves too few for the set: the way of one sweep leads nowhere, and that of a few does.
#[test]
fn duals_leap_along_the_way_of_several_sweeps(rt: HostRuntime) -> Result<(), Fail> {
    let alloc = rt.alloc();
    let rows = crossed(alloc)?;
    let used = Column {
        must: true,
        ..column(1, 3, 2)
    };
    let cols = [
        column(0, 1, 14),
        column(0, 2, 32),
        column(0, 3, 34),
        column(1, 2, 37),
        used,
        column(2, 3, 11),
    ];
    let table = grow_table(alloc, Vec::new(alloc), &rows, &cols, 0)?;
    let mut ys = zeros(alloc, &rows)?;
    let judged = judge(alloc, &table, &rows, &cols, &[0; 6], &mut ys)?;
    assert!(rt; !judged.is_good);
    assert!(rt; judged.gap < 0);
    Ok(())
}
