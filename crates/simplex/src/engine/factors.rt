//! A basis as a product: a lower triangle, an update for each pivot since, an upper triangle, and an eta for each row that came since.
//!
//! Each column of the basis has a row that was its pivot, and bears that row's number. So `ftran` solves a list of numbers,
//! one a row, in place: by the lower triangle in the order of the pivots, by the updates, by the upper triangle against that order, then by the
//! etas of rows; and `btran` the other way round. Zeros are skipped. O(entries) each.
//!
//! An update stands in the middle: it is one and a product of a column, which is what half a solve for the entering column leaves less what it leaves for the
//! one that goes, and of a row, which is half a solve for the pivot row. Both are sparser than the entering column in terms of the basis, which an eta would
//! hold (Huangfu and Hall 2015, the middle product form).
//! (Markowitz 1957; Suhl and Suhl 1990.)
use super::lists::{Entry, Lists, narrow};
use super::numbers::{ONE, div, mul};
use super::tolerances::{MOST_NEW_ROWS, MOST_PIVOTS, NOISE};
use std::alloc::{AllocError, Global};

/// An entry of a row that is new to the factors: of the variable that is basic at a place.
#[derive(Clone, Copy)]
pub struct NewEntry {
    pub row: u32,
    pub place: u32,
    pub coef: i64,
}

/// The factors of a basis.
#[derive(Drop)]
pub struct Factors {
    // the rows in the order of their pivots
    pub order: Vec<u32>,
    // of these, the ones that the lower triangle is not only 1 at
    pub lower_order: Vec<u32>,
    pub lower: Lists,
    pub upper: Lists,
    // the upper triangle by rows
    pub upper_rows: Lists,
    // one over the pivot of each row
    pub reciprocals: Vec<i64>,
    // one over the pivot of each update, its columns and its rows
    updates: Vec<i64>,
    columns: Lists,
    pivot_rows: Lists,
    // the rows that came since, and what they have of the columns of the basis
    new_rows: Vec<u32>,
    row_entries: Lists,
    // what half a solve left of the entering column, and of the pivot row
    half_column: Vec<i64>,
    half_row: Vec<i64>,
    // how many rows the factors have, those that came since with them
    rows: usize,
}

/// A number of a list.
#[inline]
pub fn at(list: &[i64], place: u32) -> i64 {
    match list.get(place as usize) {
        Some(x) => *x,
        None => 0,
    }
}

/// Takes so many times some entries off a list.
#[inline]
pub fn take_off(list: &mut [i64], entries: &[Entry], times: i64) {
    for entry in entries {
        if let Some(x) = list.get_mut(entry.row as usize) {
            *x = x.wrapping_sub(mul(entry.coef, times));
        }
    }
}

/// A number less what some entries have of a list.
#[inline]
fn less_dot(list: &[i64], entries: &[Entry], from: i64) -> i64 {
    let mut sum = from;
    for entry in entries {
        if let Some(x) = list.get(entry.row as usize) {
            if *x != 0 {
                sum = sum.wrapping_sub(mul(entry.coef, *x));
            }
        }
    }
    sum
}

/// Solves a list by an update: takes some entries off it as often as it has of others, over the pivot.
#[inline]
fn mend(list: &mut [i64], others: &[Entry], entries: &[Entry], reciprocal: i64) {
    let missing = less_dot(list, others, 0);
    if missing != 0 {
        take_off(list, entries, mul(missing.wrapping_neg(), reciprocal));
    }
}

/// Keeps a list.
fn keep(to: &mut [i64], list: &[i64]) {
    for (kept, x) in to.iter_mut().zip(list) {
        *kept = *x;
    }
}

/// Writes what is not 0 of a list.
fn write(to: &mut Lists, list: &[i64]) -> Result<(), AllocError> {
    let mut place: u32 = 0;
    for x in list {
        if x.wrapping_abs() > NOISE {
            to.push(place, *x)?;
        }
        place = place.wrapping_add(1);
    }
    Ok(())
}

impl Factors {
    /// The factors of no rows.
    pub fn none(alloc: Global) -> Factors {
        Factors {
            order: Vec::new(alloc),
            lower_order: Vec::new(alloc),
            lower: Lists::none(alloc),
            upper: Lists::none(alloc),
            upper_rows: Lists::none(alloc),
            reciprocals: Vec::new(alloc),
            updates: Vec::new(alloc),
            columns: Lists::none(alloc),
            pivot_rows: Lists::none(alloc),
            new_rows: Vec::new(alloc),
            row_entries: Lists::none(alloc),
            half_column: Vec::new(alloc),
            half_row: Vec::new(alloc),
            rows: 0,
        }
    }

    /// Room for the factors of so many rows.
    pub fn new(alloc: Global, count: usize) -> Result<Factors, AllocError> {
        let mut factors = Factors::none(alloc);
        factors.lower = Lists::new(alloc, count)?;
        factors.upper = Lists::new(alloc, count)?;
        factors.reciprocals = vec![in alloc; ONE; count]?;
        factors.columns = Lists::new(alloc, MOST_PIVOTS)?;
        factors.pivot_rows = Lists::new(alloc, MOST_PIVOTS)?;
        factors.row_entries = Lists::new(alloc, MOST_NEW_ROWS)?;
        factors.half_column = vec![in alloc; 0; count]?;
        factors.half_row = vec![in alloc; 0; count]?;
        factors.rows = count;
        Ok(factors)
    }

    /// Whether no pivot was made and no row came since the basis was factored.
    pub fn is_fresh(&self) -> bool {
        self.updates.is_empty() && self.new_rows.is_empty()
    }

    /// Whether the basis is to be factored anew.
    pub fn is_full(&self) -> bool {
        self.updates.len() >= MOST_PIVOTS
    }

    /// How many rows the factors have.
    pub fn rows(&self) -> usize {
        self.rows
    }

    /// Whether so many rows in all are few enough to come in by etas.
    pub fn may_take(&self, rows: usize) -> bool {
        self.rows > 0
            && !self.is_full()
            && rows >= self.rows
            && self.new_rows.len().saturating_add(rows - self.rows) <= MOST_NEW_ROWS
    }

    /// Takes rows in, up to a count, whose slacks are basic in them; the entries of the others that are basic, by rising rows.
    pub fn push_rows(&mut self, rows: usize, entries: &[NewEntry]) -> Result<(), AllocError> {
        let mut next: usize = 0;
        for row in self.rows..rows {
            next = self.write_row(narrow(row), entries, next)?;
            self.row_entries.close(narrow(self.new_rows.len()));
            self.new_rows.push(narrow(row))?;
            self.half_column.push(0)?;
            self.half_row.push(0)?;
        }
        self.rows = rows;
        Ok(())
    }

    /// Writes a row's entries, which begin at a place of some; the place behind them.
    fn write_row(
        &mut self,
        row: u32,
        entries: &[NewEntry],
        from: usize,
    ) -> Result<usize, AllocError> {
        let mut next = from;
        for entry in entries.iter().skip(from) {
            if entry.row != row {
                break;
            }
            self.row_entries.push(entry.place, entry.coef)?;
            next = next.wrapping_add(1);
        }
        Ok(next)
    }

    /// Drops the pivots since the basis was factored, where no row came since.
    pub fn forget_pivots(&mut self) {
        self.updates.clear();
        self.columns.clear();
        self.pivot_rows.clear();
    }

    /// The column of a row becomes the one that `ftran_entering` solved for last, and `btran_leaving` solved for the row; its entry in the row is given.
    pub fn push_update(&mut self, row: u32, entry: i64) -> Result<(), AllocError> {
        self.take_leaving_off(row);
        write(&mut self.columns, &self.half_column)?;
        write(&mut self.pivot_rows, &self.half_row)?;
        let place = narrow(self.updates.len());
        self.columns.close(place);
        self.pivot_rows.close(place);
        self.updates.push(div(ONE, entry))?;
        Ok(())
    }

    /// Takes what half a solve leaves of a row's column off what it left of the entering one.
    fn take_leaving_off(&mut self, row: u32) {
        let pivot = match self.reciprocals.get(row as usize) {
            Some(reciprocal) => div(ONE, *reciprocal),
            None => ONE,
        };
        if let Some(x) = self.half_column.get_mut(row as usize) {
            *x = x.wrapping_sub(pivot);
        }
        take_off(&mut self.half_column, self.upper.of(row), ONE);
        let mut place: u32 = 0;
        for new_row in &self.new_rows {
            for entry in self.row_entries.of(place) {
                if entry.row == row {
                    if let Some(x) = self.half_column.get_mut(*new_row as usize) {
                        *x = x.wrapping_sub(entry.coef);
                    }
                }
            }
            place = place.wrapping_add(1);
        }
    }

    /// Solves for a right side: the basis times the new list is the old one.
    pub fn ftran(&self, list: &mut [i64]) {
        self.ftran_low(list);
        self.ftran_high(list);
    }

    /// The same for the column that enters, of which half a solve is kept.
    pub fn ftran_entering(&mut self, list: &mut [i64]) {
        self.ftran_low(list);
        keep(&mut self.half_column, list);
        self.ftran_high(list);
    }

    /// The half of `ftran` by the lower triangle and the updates.
    fn ftran_low(&self, list: &mut [i64]) {
        for row in &self.lower_order {
            let x = at(list, *row);
            if x != 0 {
                take_off(list, self.lower.of(*row), x);
            }
        }
        let mut place: u32 = 0;
        for reciprocal in &self.updates {
            mend(
                list,
                self.pivot_rows.of(place),
                self.columns.of(place),
                *reciprocal,
            );
            place = place.wrapping_add(1);
        }
    }

    /// The half of `ftran` by the upper triangle and the rows that came since.
    fn ftran_high(&self, list: &mut [i64]) {
        for row in self.order.iter().rev() {
            self.ftran_at(list, *row);
        }
        let mut place: u32 = 0;
        for row in &self.new_rows {
            let rest = less_dot(list, self.row_entries.of(place), at(list, *row));
            if let Some(to) = list.get_mut(*row as usize) {
                *to = rest;
            }
            place = place.wrapping_add(1);
        }
    }

    #[inline]
    fn ftran_at(&self, list: &mut [i64], row: u32) {
        let x = at(list, row);
        if x != 0 {
            let y = mul(x, at(&self.reciprocals, row));
            if let Some(to) = list.get_mut(row as usize) {
                *to = y;
            }
            take_off(list, self.upper.of(row), y);
        }
    }

    /// Solves for costs: the new list times the basis is the old one.
    pub fn btran(&self, list: &mut [i64]) {
        self.btran_high(list);
        self.btran_low(list);
    }

    /// The same for the row that is left, of which half a solve is kept.
    pub fn btran_leaving(&mut self, list: &mut [i64]) {
        self.btran_high(list);
        keep(&mut self.half_row, list);
        self.btran_low(list);
    }

    /// The half of `btran` by the rows that came since and the upper triangle.
    fn btran_high(&self, list: &mut [i64]) {
        let mut place = narrow(self.new_rows.len());
        for row in self.new_rows.iter().rev() {
            place = place.wrapping_sub(1);
            let x = at(list, *row);
            if x != 0 {
                take_off(list, self.row_entries.of(place), x);
            }
        }
        for row in &self.order {
            self.btran_at(list, *row);
        }
    }

    /// The half of `btran` by the updates and the lower triangle.
    fn btran_low(&self, list: &mut [i64]) {
        let mut place = narrow(self.updates.len());
        for reciprocal in self.updates.iter().rev() {
            place = place.wrapping_sub(1);
            mend(
                list,
                self.columns.of(place),
                self.pivot_rows.of(place),
                *reciprocal,
            );
        }
        for row in self.lower_order.iter().rev() {
            let rest = less_dot(list, self.lower.of(*row), at(list, *row));
            if let Some(to) = list.get_mut(*row as usize) {
                *to = rest;
            }
        }
    }

    #[inline]
    fn btran_at(&self, list: &mut [i64], row: u32) {
        let x = at(list, row);
        if x != 0 {
            let y = mul(x, at(&self.reciprocals, row));
            if let Some(to) = list.get_mut(row as usize) {
                *to = y;
            }
            take_off(list, self.upper_rows.of(row), y);
        }
    }
}
