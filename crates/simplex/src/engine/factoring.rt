//! Factoring a basis.
//!
//! First the column singletons, each in its turn, slacks among them; then the row singletons. What stays, the nucleus, is
//! small: its columns, the short ones first, are eliminated one by one, and of the rows whose entries are an eighth of the
//! largest or more the one that the fewest columns meet becomes the pivot (Markowitz 1957; Suhl and Suhl 1990).
use super::factors::{Factors, at, take_off};
use super::lists::{Entry, Lists, narrow};
use super::numbers::{ONE, div};
use super::tolerances::{LEAST_PIVOT, PIVOT_THRESHOLD};
use std::alloc::{AllocError, Global};

// no place in the basis
pub const NONE: u32 = 4_294_967_295;

/// Factors in the making.
#[derive(Drop)]
pub struct Factoring {
    pub factors: Factors,
    // of each row the place in the basis of the column that it is the pivot of
    pub place_of: Vec<u32>,
    columns: Lists,
    rows: Lists,
    // the columns that have a pivot
    pub done: Vec<bool>,
    // of each column how many rows are left
    column_counts: Vec<u32>,
    // of each row how many columns are left
    row_counts: Vec<u32>,
    stack: Vec<u32>,
    // one column, by rows, in the making, and the rows that it meets
    work: Vec<i64>,
    nonzeros: Vec<u32>,
}

#[inline]
fn count_at(list: &[u32], place: u32) -> u32 {
    match list.get(place as usize) {
        Some(x) => *x,
        None => 0,
    }
}

/// One less at a place; what is left.
#[inline]
fn decrement(list: &mut [u32], place: u32) -> u32 {
    match list.get_mut(place as usize) {
        Some(x) => {
            *x = x.saturating_sub(1);
            *x
        }
        None => 0,
    }
}

impl Factoring {
    /// The factors of the basis whose columns are given in terms of the rows.
    pub fn of(alloc: Global, columns: Lists, count: usize) -> Result<Factoring, AllocError> {
        let rows = columns.transposed(alloc, count)?;
        let mut made = Factoring {
            factors: Factors::new(alloc, count)?,
            place_of: vec![in alloc; NONE; count]?,
            columns,
            rows,
            done: vec![in alloc; false; count]?,
            column_counts: Vec::with_capacity(alloc, count)?,
            row_counts: vec![in alloc; 0; count]?,
            stack: Vec::with_capacity(alloc, count)?,
            work: vec![in alloc; 0; count]?,
            nonzeros: Vec::new(alloc),
        };
        made.take_column_singletons(count)?;
        made.take_row_singletons(count)?;
        made.factor_nucleus(count)?;
        made.factors.upper_rows = made.factors.upper.transposed(alloc, count)?;
        Ok(made)
    }

    #[inline]
    fn is_left(&self, row: u32) -> bool {
        count_at(&self.place_of, row) == NONE
    }

    #[inline]
    fn is_done(&self, place: u32) -> bool {
        match self.done.get(place as usize) {
            Some(x) => *x,
            None => true,
        }
    }

    /// A row is the pivot of the column at a place of the basis.
    fn set_pivot(&mut self, place: u32, row: u32, pivot: i64) -> Result<(), AllocError> {
        if let Some(to) = self.done.get_mut(place as usize) {
            *to = true;
        }
        if let Some(to) = self.place_of.get_mut(row as usize) {
            *to = place;
        }
        if let Some(to) = self.factors.reciprocals.get_mut(row as usize) {
            *to = div(ONE, pivot);
        }
        Ok(self.factors.order.push(row)?)
    }

    fn take_column_singletons(&mut self, count: usize) -> Result<(), AllocError> {
        for place in 0..count {
            let width = narrow(self.columns.of(narrow(place)).len());
            self.column_counts.push(width)?;
            if width == 1 {
                self.stack.push(narrow(place))?;
            }
        }
        for _ in 0..count {
            let Some(place) = self.stack.pop() else {
                break;
            };
            self.take_column_singleton(place)?;
        }
        Ok(())
    }

    /// A column that meets one row that is left: its other entries belong to the upper triangle.
    fn take_column_singleton(&mut self, place: u32) -> Result<(), AllocError> {
        let mut pivot: Option<Entry> = None;
        for entry in self.columns.of(place) {
            if count_at(&self.place_of, entry.row) == NONE {
                pivot = Some(*entry);
            } else {
                self.factors.upper.push(entry.row, entry.coef)?;
            }
        }
        let Some(pivot) = pivot else {
            return Ok(());
        };
        self.factors.upper.close(pivot.row);
        self.set_pivot(place, pivot.row, pivot.coef)?;
        for entry in self.rows.of(pivot.row) {
            if decrement(&mut self.column_counts, entry.row) == 1 && !is_in(&self.done, entry.row) {
                self.stack.push(entry.row)?;
            }
        }
        Ok(())
    }

    fn take_row_singletons(&mut self, count: usize) -> Result<(), AllocError> {
        self.stack.clear();
        for row in 0..count {
            if self.is_left(narrow(row)) {
                let many = self.count_row(narrow(row));
                if let Some(to) = self.row_counts.get_mut(row) {
                    *to = many;
                }
                if many == 1 {
                    self.stack.push(narrow(row))?;
                }
            }
        }
        for _ in 0..count {
            let Some(row) = self.stack.pop() else {
                break;
            };
            self.take_row_singleton(row)?;
        }
        Ok(())
    }

    /// How many of the columns that are left a row meets.
    fn count_row(&self, row: u32) -> u32 {
        let mut many: u32 = 0;
        for entry in self.rows.of(row) {
            if !self.is_done(entry.row) {
                many = many.wrapping_add(1);
            }
        }
        many
    }

    /// A row that meets one column that is left: what that column has of the rows that are left goes into the lower triangle.
    fn take_row_singleton(&mut self, row: u32) -> Result<(), AllocError> {
        let mut pivot: Option<Entry> = None;
        for entry in self.rows.of(row) {
            if !is_in(&self.done, entry.row) {
                pivot = Some(*entry);
            }
        }
        let Some(pivot) = pivot else {
            return Ok(());
        };
        let place = pivot.row;
        for entry in self.columns.of(place) {
            if count_at(&self.place_of, entry.row) != NONE {
                self.factors.upper.push(entry.row, entry.coef)?;
            } else if entry.row != row {
                self.factors
                    .lower
                    .push(entry.row, div(entry.coef, pivot.coef))?;
                if decrement(&mut self.row_counts, entry.row) == 1 {
                    self.stack.push(entry.row)?;
                }
            }
        }
        self.close(row)?;
        self.set_pivot(place, row, pivot.coef)
    }

    /// Ends the lists of a row.
    fn close(&mut self, row: u32) -> Result<(), AllocError> {
        self.factors.upper.close(row);
        self.factors.lower.close(row);
        if !self.factors.lower.of(row).is_empty() {
            self.factors.lower_order.push(row)?;
        }
        Ok(())
    }

    /// The columns that are left, by how many rows they had when the singletons were gone.
    fn factor_nucleus(&mut self, count: usize) -> Result<(), AllocError> {
        self.stack.clear();
        for place in 0..count {
            if !self.is_done(narrow(place)) {
                self.stack.push(narrow(place))?;
            }
        }
        let first = self.factors.lower_order.len();
        let column_counts = &self.column_counts;
        self.stack
            .sort_unstable_by_key(|place| count_at(column_counts, *place));
        for at in 0..self.stack.len() {
            let place = self.stack.get(at).copied().unwrap_or(NONE);
            self.scatter(place)?;
            self.eliminate(first)?;
            self.take_pivot(place)?;
        }
        Ok(())
    }

    /// Spreads a column over the rows, in `work`.
    fn scatter(&mut self, place: u32) -> Result<(), AllocError> {
        self.nonzeros.clear();
        for entry in self.columns.of(place) {
            if let Some(x) = self.work.get_mut(entry.row as usize) {
                *x = entry.coef;
            }
            self.nonzeros.push(entry.row)?;
        }
        Ok(())
    }

    /// Eliminates the pivots from a place on.
    fn eliminate(&mut self, first: usize) -> Result<(), AllocError> {
        for row in self.factors.lower_order.iter().skip(first) {
            let x = at(&self.work, *row);
            if x != 0 {
                for entry in self.factors.lower.of(*row) {
                    if at(&self.work, entry.row) == 0 {
                        self.nonzeros.push(entry.row)?;
                    }
                }
                take_off(&mut self.work, self.factors.lower.of(*row), x);
            }
        }
        Ok(())
    }

    /// The row among those left that becomes the pivot.
    fn choose_pivot(&self) -> Option<Entry> {
        let mut most: i64 = LEAST_PIVOT;
        for row in &self.nonzeros {
            if self.is_left(*row) {
                most = most.max(at(&self.work, *row).wrapping_abs());
            }
        }
        let least = most >> PIVOT_THRESHOLD;
        let mut best: Option<Entry> = None;
        let mut fewest = NONE;
        for row in &self.nonzeros {
            let coef = at(&self.work, *row);
            let many = count_at(&self.row_counts, *row);
            if self.is_left(*row) && coef.wrapping_abs() >= least && many < fewest {
                fewest = many;
                best = Some(Entry { row: *row, coef });
            }
        }
        best
    }

    /// Makes a row the pivot of the column in `work`. A column that depends on those before stays without one.
    fn take_pivot(&mut self, place: u32) -> Result<(), AllocError> {
        let best = self.choose_pivot();
        let row = match best {
            Some(pivot) => pivot.row,
            None => NONE,
        };
        let pivot = match best {
            Some(pivot) => pivot.coef,
            None => ONE,
        };
        for to in &self.nonzeros {
            if let Some(x) = self.work.get_mut(*to as usize) {
                let coef = *x;
                *x = 0;
                if coef != 0 && *to != row && row != NONE {
                    if count_at(&self.place_of, *to) == NONE {
                        self.factors.lower.push(*to, div(coef, pivot))?;
                    } else {
                        self.factors.upper.push(*to, coef)?;
                    }
                }
            }
        }
        if row == NONE {
            return Ok(());
        }
        self.close(row)?;
        self.set_pivot(place, row, pivot)
    }
}

#[inline]
fn is_in(list: &[bool], place: u32) -> bool {
    match list.get(place as usize) {
        Some(x) => *x,
        None => true,
    }
}
