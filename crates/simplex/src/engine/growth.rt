//! New rows and columns.
use super::lists::{Entry, narrow};
use super::numbers::ONE;
use super::tolerances::{COST_BITS, FAR, PERTURBATION_SHIFT};
use super::{BasisRow, Engine, Priced, Slack, State, Structural, Variable, dot};
use lpcheck::{Cells, Column, Row, Sense};
use std::alloc::{AllocError, Global};

/// The tiny cost that a pair bears, in whichever program it has a column: drawn from its cities by a mix of words (the
/// finalizer of MurmurHash3), since the duals of degree rows would absorb what is linear in them.
pub fn perturbation_of(u: u32, v: u32) -> i64 {
    let mut word = (u64::from(u) << 32) ^ u64::from(v);
    word = (word ^ (word >> 33) ^ 11).wrapping_mul(0xff51_afd7_ed55_8ccd);
    word = (word ^ (word >> 33)).wrapping_mul(0xc4ce_b9fe_1a85_ec53);
    ((word ^ (word >> 33)) >> PERTURBATION_SHIFT) as i64
}

/// A cost as the engine has it, shifted right by so many bits.
pub fn scaled_cost(cost: u32, shift: u32) -> i64 {
    (i64::from(cost).wrapping_mul(ONE)) >> (shift.min(32 - COST_BITS))
}

/// A coefficient that is negated and multiplied by.
#[inline]
fn take_off(sum: i64, coef: u16, x: i64) -> i64 {
    sum.wrapping_sub(i64::from(coef).wrapping_mul(x))
}

impl Engine {
    /// Takes in the rows and columns that came since.
    pub fn grow(
        &mut self,
        alloc: Global,
        table: &[Cells],
        rows: &[Row],
        cols: &[Column],
    ) -> Result<(), AllocError> {
        let old_rows = self.slacks.len();
        let old_cols = self.structurals.len();
        for column in cols.iter().skip(old_cols) {
            self.add_structural(alloc, column)?;
        }
        for (cells, place) in table.iter().zip(0..old_rows) {
            self.add_entries(cells, place, old_cols)?;
        }
        self.place_structurals(old_cols);
        for (row, cells) in rows.iter().zip(table).skip(old_rows) {
            self.add_row(row, cells)?;
        }
        Ok(())
    }

    /// A new column, without its entries.
    fn add_structural(&mut self, alloc: Global, column: &Column) -> Result<(), AllocError> {
        self.structurals.push(Structural {
            cost: scaled_cost(column.cost, self.cost_shift),
            perturbation: perturbation_of(column.u, column.v),
            fixed: column.must,
            fixed_value: ONE,
            entries: Vec::new(alloc),
            value: if column.must { ONE } else { 0 },
        })?;
        self.priced.push(Priced {
            reduced_cost: 0,
            state: if column.must {
                State::Fixed
            } else {
                State::AtLower
            },
        })?;
        self.pivot_row.push(0)?;
        Ok(())
    }

    /// The entries that new columns have in a row.
    fn add_entries(&mut self, cells: &Cells, row: usize, from: usize) -> Result<(), AllocError> {
        for cell in cells.list() {
            if cell.column as usize >= from {
                self.add_entry(cell.column, row, cell.coef)?;
            }
        }
        Ok(())
    }

    fn add_entry(&mut self, column: u32, row: usize, coef: u16) -> Result<(), AllocError> {
        if let Some(structural) = self.structurals.get_mut(column as usize) {
            structural.entries.push(Entry {
                row: narrow(row),
                coef: i64::from(coef),
            })?;
        }
        Ok(())
    }

    /// Puts each new column at the bound that its reduced cost asks for. The values of the basic variables are refined later.
    fn place_structurals(&mut self, from: usize) {
        for (structural, priced) in self
            .structurals
            .iter_mut()
            .zip(self.priced.iter_mut())
            .skip(from)
        {
            priced.reduced_cost = structural
                .cost
                .wrapping_add(structural.perturbation)
                .wrapping_sub(dot(&structural.entries, &self.duals));
            if !structural.fixed && priced.reduced_cost < 0 {
                priced.state = State::AtUpper;
                structural.value = ONE;
            }
        }
    }

    /// A new row, with its slack basic in a new basis row.
    fn add_row(&mut self, row: &Row, cells: &Cells) -> Result<(), AllocError> {
        let place = self.slacks.len();
        self.add_entries(cells, place, 0)?;
        self.add_gone_entry(row, place)?;
        let rhs = i64::from(row.rhs).wrapping_mul(ONE);
        let mut value = rhs;
        for cell in cells.list() {
            if let Some(structural) = self.structurals.get(cell.column as usize) {
                value = take_off(value, cell.coef, structural.value);
            }
        }
        let low = if row.sense == Sense::AtLeast { -FAR } else { 0 };
        let high = if row.sense == Sense::AtMost { FAR } else { 0 };
        self.slacks.push(Slack {
            low,
            high,
            rhs,
            state: State::Basic,
            reduced_cost: 0,
            value,
        })?;
        self.basis.push(BasisRow {
            variable: Variable::Slack(narrow(place)),
            value,
            low,
            high,
            weight: ONE,
        })?;
        self.rho.push(0)?;
        self.work.push(0)?;
        self.duals.push(0)?;
        self.ray.push(0)?;
        Ok(())
    }
}
