//! The table of coefficients, row by row.
ghost use Rattle.std.specs.Prelude.{◌≡◌, ◌≤◌, [], ◌∷◌, length, take, All, IfOk, IfSome, OnOk};
ghost use Rattle.tspdef.specs.Cuts.{coefficient};
ghost use Rattle.lpcheck.specs.Rows.{coef, cities_of_each, IsSmall};
ghost use Rattle.lpcheck.specs.Cells.{cells_of, table_of};
ghost use Rattle.lpcheck.specs.Codes.{AreCodes};

use crate::codes::{are_alike, codes_of};
use crate::{Column, Row};
use std::alloc::{AllocError, Global};
use std::marker::Model;

/// A coefficient that is not 0, and the place of its column.
#[derive(Clone, Copy, Debug)]
pub struct Cell {
    pub column: u32,
    pub coef: u16,
}

/// The coefficients of a row that are not 0, by their columns' places.
#[derive(Debug, Drop)]
pub struct Cells {
    list: Vec<Cell>,
}

impl Model for Cells {
    ghost use Rattle.std.specs.Prelude.{List};
    ghost use Rattle.lpcheck.specs.declared.cells.Cell.{Cell};

    ghost Value = { List Cell };

    ghost view = { λ c. c.list.items };
}

impl Cells {
    /// The cells, by rising columns.
    pub fn list(&self) -> &[Cell]
        ensures { result.now ≡ self.now }
    {
        &self.list
    }

    /// The coefficients of a row, of which those of the columns before a place are known.
    fn grow(
        &mut self,
        alloc: Global,
        row: &Row,
        cols: &[Column],
        from: usize,
    ) -> Result<(), AllocError>
        requires small { IsSmall row.now }
        requires few_cols { length cols.now ≤ 4194304 }
        requires place { from ≤ length cols.now }
        requires known { self.old ≡ cells_of (take from cols.now) row.now }
        ensures { OnOk result (self.new ≡ cells_of cols.now row.now) }
    {
        extend(alloc, &mut self.list, row, cols, from)
    }
}

/// The city of a row of one set with one city, as the degree rows are.
fn lone_city(row: &Row) -> Option<u32>
    ensures { IfSome result (λ c. cities_of_each row.now.sets.items ≡ (c ∷ []) ∷ []) }
{
    if row.sets.len() != 1 {
        return None;
    }
    let cities = row.sets[0].cities();
    if cities.len() != 1 {
        return None;
    }
    Some(cities[0])
}

/// The coefficient of a pair in the row of a lone city.
#[inline]
fn lone_coef(city: u32, u: u32, v: u32) -> u16
    ensures { result ≡ coefficient ((city ∷ []) ∷ []) u v }
{
    u16::from((u == city) != (v == city))
}

/// The coefficient of a column in a row, whose lone city is known where it has one, and else perhaps the codes of the cities.
#[inline]
fn coef_of(row: &Row, lone: Option<u32>, codes: &[u64], column: &Column) -> u16
    requires small { IsSmall row.now }
    requires lone { IfSome lone (λ c. cities_of_each row.now.sets.items ≡ (c ∷ []) ∷ []) }
    requires codes { AreCodes row.now codes.now }
    ensures { result ≡ coef row.now column.now.u column.now.v }
{
    match lone {
        Some(city) => lone_coef(city, column.u, column.v),
        None => coded_coef(row, codes, column.u, column.v),
    }
}

/// The coefficient of a pair in a row.
#[inline]
fn coded_coef(row: &Row, codes: &[u64], u: u32, v: u32) -> u16
    requires small { IsSmall row.now }
    requires codes { AreCodes row.now codes.now }
    ensures { result ≡ coef row.now u v }
{
    if are_alike(codes, u, v) {
        return 0;
    }
    row.coef(u, v)
}

/// The codes of the cities by the sets of a row that has no lone city, where so many pairs make them pay.
fn codes_for(
    alloc: Global,
    row: &Row,
    lone: Option<u32>,
    pairs: usize,
) -> Result<Vec<u64>, AllocError>
    ensures { IfOk result (λ codes. AreCodes row.now codes.items) }
{
    match lone {
        Some(_) => Ok(Vec::new(alloc)),
        None => codes_of(alloc, row, pairs),
    }
}

/// The coefficients of a row, of which those of the columns before a place are known.
fn extend(
    alloc: Global,
    list: &mut Vec<Cell>,
    row: &Row,
    cols: &[Column],
    from: usize,
) -> Result<(), AllocError>
    requires small { IsSmall row.now }
    requires few_cols { length cols.now ≤ 4194304 }
    requires place { from ≤ length cols.now }
    requires known { list.old.items ≡ cells_of (take from cols.now) row.now }
    ensures { OnOk result (list.new.items ≡ cells_of cols.now row.now) }
{
    let lone = lone_city(row);
    let codes = codes_for(alloc, row, lone, cols.len() - from)?;
    for place in from..cols.len() {
        let coef = coef_of(row, lone, &codes, &cols[place]);
        if coef != 0 {
            list.push(Cell {
                column: place as u32,
                coef,
            })?;
        }
    }
    Ok(())
}

/// The coefficients of a row.
fn cells_of(alloc: Global, row: &Row, cols: &[Column]) -> Result<Cells, AllocError>
    requires small { IsSmall row.now }
    requires few_cols { length cols.now ≤ 4194304 }
    ensures { IfOk result (λ cells. cells ≡ cells_of cols.now row.now) }
{
    let mut list = Vec::new(alloc);
    extend(alloc, &mut list, row, cols, 0)?;
    Ok(Cells { list })
}

/// The coefficients of the rows that a table has, of which those of the columns before a place are known.
fn widen(
    alloc: Global,
    table: &mut Vec<Cells>,
    rows: &[Row],
    cols: &[Column],
    from: usize,
) -> Result<(), AllocError>
    requires small { All IsSmall rows.now }
    requires few_cols { length cols.now ≤ 4194304 }
    requires place { from ≤ length cols.now }
    requires fewer { length table.old.items ≤ length rows.now }
    requires known { table.old.items ≡ table_of (take (length table.old.items) rows.now) (take from cols.now) }
    ensures size { length table.new.items ≡ length table.old.items }
    ensures wide { OnOk result (table.new.items ≡ table_of (take (length table.old.items) rows.now) cols.now) }
{
    for at in 0..table.len() {
        table[at].grow(alloc, &rows[at], cols, from)?;
    }
    Ok(())
}

/// The coefficients of all rows, of which those of some first rows and columns are known: a table with the rows and the
/// columns that came since. Costs O(sets) for each pair of a row and a column that is not both known.
pub fn grow_table(
    alloc: Global,
    table: Vec<Cells>,
    rows: &[Row],
    cols: &[Column],
    from: usize,
) -> Result<Vec<Cells>, AllocError>
    requires small { All IsSmall rows.now }
    requires few_cols { length cols.now ≤ 4194304 }
    requires place { from ≤ length cols.now }
    requires fewer { length table.items ≤ length rows.now }
    requires known { table.items ≡ table_of (take (length table.items) rows.now) (take from cols.now) }
    ensures { IfOk result (λ t. t.items ≡ table_of rows.now cols.now) }
{
    let mut whole = table;
    widen(alloc, &mut whole, rows, cols, from)?;
    for at in whole.len()..rows.len() {
        whole.push(cells_of(alloc, &rows[at], cols)?)?;
    }
    Ok(whole)
}
