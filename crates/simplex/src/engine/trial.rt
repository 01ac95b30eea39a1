//! Trials: what it would cost to hold a column at one of its bounds, by some pivots on a copy of the engine.
//!
//! The copy is factored once. Each trial goes on from there by updates alone and is undone by dropping them, so it costs its pivots and a
//! pass over the lists (strong branching: Applegate, Bixby, Chvátal and Cook, "The Traveling Salesman Problem", 2006, chapter 14).
use super::lists::narrow;
use super::numbers::ONE;
use super::tolerances::COST_BITS;
use super::{BasisRow, Engine, Priced, Slack, Structural, Variable};
use lpcheck::Cells;
use std::alloc::{AllocError, Global};

/// Where the variables stand, with their values.
#[derive(Drop)]
pub struct Stand {
    priced: Vec<Priced>,
    slacks: Vec<Slack>,
    basis: Vec<BasisRow>,
    values: Vec<i64>,
}

/// How a trial ended.
#[derive(Clone, Copy)]
pub enum End {
    /// No values meet the rows.
    NoValues,
    /// At that cost, in units: the least, or a lower one where the pivots were used up.
    Cost(i128),
}

/// A list, copied.
fn copied<T: Copy>(alloc: Global, list: &[T]) -> Result<Vec<T>, AllocError> {
    let mut copy = Vec::with_capacity(alloc, list.len())?;
    for one in list {
        copy.push(*one)?;
    }
    Ok(copy)
}

/// Columns with their entries, copied.
fn copied_columns(alloc: Global, list: &[Structural]) -> Result<Vec<Structural>, AllocError> {
    let mut copy = Vec::with_capacity(alloc, list.len())?;
    for one in list {
        copy.push(Structural {
            cost: one.cost,
            perturbation: one.perturbation,
            fixed: one.fixed,
            fixed_value: one.fixed_value,
            entries: copied(alloc, &one.entries)?,
            value: one.value,
        })?;
    }
    Ok(copy)
}

impl Engine {
    /// A copy with factors of its own. O(entries of the columns), and a factoring.
    pub fn copy(&self, alloc: Global) -> Result<Engine, AllocError> {
        let mut copy = Engine::new(alloc);
        copy.structurals = copied_columns(alloc, &self.structurals)?;
        copy.priced = copied(alloc, &self.priced)?;
        copy.slacks = copied(alloc, &self.slacks)?;
        copy.basis = copied(alloc, &self.basis)?;
        copy.rho = copied(alloc, &self.rho)?;
        copy.work = copied(alloc, &self.work)?;
        copy.pivot_row = copied(alloc, &self.pivot_row)?;
        copy.duals = copied(alloc, &self.duals)?;
        copy.ray = copied(alloc, &self.ray)?;
        copy.cost_shift = self.cost_shift;
        copy.gone = copied_columns(alloc, &self.gone)?;
        copy.gone_pair = self.gone_pair;
        copy.refactor(alloc)?;
        Ok(copy)
    }

    /// Where everything stands.
    pub fn stand(&self, alloc: Global) -> Result<Stand, AllocError> {
        let mut values = Vec::with_capacity(alloc, self.structurals.len())?;
        for structural in &self.structurals {
            values.push(structural.value)?;
        }
        Ok(Stand {
            priced: copied(alloc, &self.priced)?,
            slacks: copied(alloc, &self.slacks)?,
            basis: copied(alloc, &self.basis)?,
            values,
        })
    }

    /// Puts everything where it stood when the basis was factored, and drops the pivots since.
    pub fn go_back(&mut self, stand: &Stand) {
        for (to, from) in self.priced.iter_mut().zip(&stand.priced) {
            *to = *from;
        }
        for (to, from) in self.slacks.iter_mut().zip(&stand.slacks) {
            *to = *from;
        }
        for (to, from) in self.basis.iter_mut().zip(&stand.basis) {
            *to = *from;
        }
        for (to, from) in self.structurals.iter_mut().zip(&stand.values) {
            to.value = *from;
        }
        self.factors.forget_pivots();
    }

    /// What the columns cost at their values, in units.
    pub fn cost(&self) -> i128 {
        let mut cost: i128 = 0;
        for structural in &self.structurals {
            if structural.value != 0 {
                let part = i128::from(structural.cost).wrapping_mul(i128::from(structural.value));
                cost = cost.wrapping_add(part);
            }
        }
        cost >> (44 - self.cost_shift.min(32 - COST_BITS))
    }

    /// Holds a basic column at 0 or at one, and makes at most so many pivots: how that ends.
    pub fn hold(
        &mut self,
        table: &[Cells],
        column: usize,
        at_one: bool,
        pivots: u32,
    ) -> Result<End, AllocError> {
        let value = if at_one { ONE } else { 0 };
        self.fix(column, true, value);
        for row in self.basis.iter_mut() {
            if let Variable::Column(j) = row.variable {
                if j == narrow(column) {
                    row.low = value;
                    row.high = value;
                }
            }
        }
        let has_values = self.descend(table, pivots)?;
        self.store_values();
        self.fix(column, false, 0);
        if has_values {
            Ok(End::Cost(self.cost()))
        } else {
            Ok(End::NoValues)
        }
    }

    /// Fixes a column at a value, or lets it go.
    fn fix(&mut self, column: usize, fixed: bool, value: i64) {
        if let Some(structural) = self.structurals.get_mut(column) {
            structural.fixed = fixed;
            structural.fixed_value = value;
        }
    }

    /// At most so many pivots, as far as the factors take their updates: false where no values meet the rows.
    fn descend(&mut self, table: &[Cells], pivots: u32) -> Result<bool, AllocError> {
        for _ in 0..pivots {
            if self.factors.is_full() {
                return Ok(true);
            }
            let Some((place, infeasibility)) = self.choose_leaving() else {
                return Ok(true);
            };
            self.btran_row(place);
            self.price(table)?;
            let Some(variable) = self.ratio_test(infeasibility)? else {
                return Ok(false);
            };
            if !self.pivot(place, variable)? {
                return Ok(true);
            }
        }
        Ok(true)
    }
}
