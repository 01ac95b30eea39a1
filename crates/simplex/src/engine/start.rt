//! The start at a basis that is named.
//!
//! A basis of a like program is dual feasible here too where both have the same costs: then the solve goes on from there by the few
//! pivots that its new bounds and rows ask for (the warm start of branch and bound). A column of that basis that is forbidden here stays in it at
//! first, bound to the value 0, so that the duals are those of before; the first pivots make it leave for good.
use super::growth::{perturbation_of, scaled_cost};
use super::lists::{Entry, narrow};
use super::numbers::ONE;
use super::{Engine, State, Structural, Variable};
use crate::basis::Basis;
use cyc::CitySet;
use lpcheck::{Column, Row};
use std::alloc::{AllocError, Global};

/// How many of some sets a pair crosses.
fn coef_of(sets: &[CitySet], u: u32, v: u32) -> i64 {
    let mut coef: i64 = 0;
    for set in sets {
        if set.contains(u) != set.contains(v) {
            coef = coef.wrapping_add(1);
        }
    }
    coef
}

/// The first row from one on whose slack is not to be basic.
fn next_free(slacks: &[bool], from: usize) -> Option<usize> {
    for row in from..slacks.len() {
        if !slacks[row] {
            return Some(row);
        }
    }
    None
}

impl Engine {
    /// Puts the columns of a named basis into the basis rows of the slacks that are not to be basic. The factoring that follows
    /// mends what does not go together.
    pub fn begin_at(
        &mut self,
        alloc: Global,
        rows: &[Row],
        basis: &Basis,
    ) -> Result<(), AllocError> {
        let mut free = next_free(&basis.slacks, 0);
        if let (Some(column), Some(row)) = (&basis.gone, free) {
            self.add_gone(alloc, rows, column)?;
            self.give_row(row, Variable::Gone);
            free = next_free(&basis.slacks, row.wrapping_add(1));
        }
        for (column, is_basic) in basis.columns.iter().enumerate() {
            if *is_basic && column < self.structurals.len() {
                let Some(row) = free else {
                    return Ok(());
                };
                self.give_row(row, Variable::Column(narrow(column)));
                free = next_free(&basis.slacks, row.wrapping_add(1));
            }
        }
        Ok(())
    }

    /// Keeps the column of a pair that the program lacks.
    fn add_gone(&mut self, alloc: Global, rows: &[Row], column: &Column) -> Result<(), AllocError> {
        self.gone.push(Structural {
            cost: scaled_cost(column.cost, self.cost_shift),
            perturbation: perturbation_of(column.u, column.v),
            fixed: true,
            fixed_value: 0,
            entries: Vec::new(alloc),
            value: 0,
        })?;
        self.gone_pair = (column.u, column.v);
        for (place, row) in rows.iter().enumerate() {
            self.add_gone_entry(row, place)?;
        }
        Ok(())
    }

    /// The entry that the column of a pair that the program lacks has in a row.
    pub(super) fn add_gone_entry(&mut self, row: &Row, place: usize) -> Result<(), AllocError> {
        let (u, v) = self.gone_pair;
        if let Some(structural) = self.gone.get_mut(0) {
            let coef = coef_of(&row.sets, u, v);
            if coef != 0 {
                structural.entries.push(Entry {
                    row: narrow(place),
                    coef,
                })?;
            }
        }
        Ok(())
    }

    /// Puts a variable into the basis row of a row's slack.
    fn give_row(&mut self, row: usize, variable: Variable) {
        let (low, high, value) = match variable {
            Variable::Column(j) => match self.structurals.get(j as usize) {
                Some(structural) if structural.fixed => {
                    (
                        structural.fixed_value,
                        structural.fixed_value,
                        structural.value,
                    )
                }
                Some(structural) => (0, ONE, structural.value),
                None => (0, 0, 0),
            },
            _ => (0, 0, 0),
        };
        if let Some(old) = self.basis.get(row).copied() {
            let state = if old.low == old.high {
                State::Fixed
            } else if old.low < 0 {
                State::AtUpper
            } else {
                State::AtLower
            };
            self.put(old.variable, state, 0);
            self.put(variable, State::Basic, 0);
            if let Some(to) = self.basis.get_mut(row) {
                to.variable = variable;
                to.value = value;
                to.low = low;
                to.high = high;
            }
        }
    }
}
