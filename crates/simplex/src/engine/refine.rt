//! The basis factored anew, and values and duals by residuals.
use super::factoring::{Factoring, NONE};
use super::factors::NewEntry;
use super::lists::{Entry, Lists, narrow};
use super::numbers::ONE;
use super::tolerances::{LAST_REFINEMENTS, RAY_LENGTH, REFINEMENTS};
use super::{BasisRow, Engine, State, Structural, Variable, dot};
use std::alloc::{AllocError, Global};

/// Takes what some variables have of each row off a list by rows.
fn take_values_off(list: &mut [i64], structurals: &[Structural]) {
    for structural in structurals {
        if structural.value != 0 {
            for entry in &structural.entries {
                if let Some(to) = list.get_mut(entry.row as usize) {
                    *to = to.wrapping_sub(entry.coef.wrapping_mul(structural.value));
                }
            }
        }
    }
}

impl Engine {
    /// Factors the basis anew, and mends what was carried along since it was factored before.
    pub fn refactor(&mut self, alloc: Global) -> Result<(), AllocError> {
        self.factor(alloc)?;
        self.recompute();
        Ok(())
    }

    /// Takes the rows that came since the basis was factored into the factors where they are few, and factors it anew where they are not.
    pub fn begin(&mut self, alloc: Global) -> Result<(), AllocError> {
        let rows = self.basis.len();
        if !self.factors.may_take(rows) {
            return self.refactor(alloc);
        }
        let entries = self.new_entries(alloc)?;
        self.factors.push_rows(rows, &entries)?;
        self.recompute();
        Ok(())
    }

    /// What basic variables have of the rows that are new to the factors, by rising rows.
    fn new_entries(&self, alloc: Global) -> Result<Vec<NewEntry>, AllocError> {
        let from = narrow(self.factors.rows());
        let mut keys = Vec::new(alloc);
        let mut place: u32 = 0;
        for row in &self.basis {
            for entry in self.entries_of(row.variable).iter().rev() {
                if entry.row < from {
                    break;
                }
                keys.push((entry.row, place, entry.coef.wrapping_mul(ONE)))?;
            }
            place = place.wrapping_add(1);
        }
        keys.sort_unstable();
        let mut entries = Vec::with_capacity(alloc, keys.len())?;
        for (row, place, coef) in keys {
            entries.push(NewEntry { row, place, coef })?;
        }
        Ok(entries)
    }

    /// The entries of a column, or of the one that is gone; of a slack none.
    fn entries_of(&self, variable: Variable) -> &[Entry] {
        let structural = match variable {
            Variable::Column(j) => self.structurals.get(j as usize),
            Variable::Gone => self.gone.first(),
            Variable::Slack(_) => None,
        };
        match structural {
            Some(structural) => &structural.entries,
            None => &[],
        }
    }

    /// Factors the basis. Each basic variable goes to the row of its pivot. Where a column has none, since it depends on
    /// others, it leaves the basis, and a row without one takes its slack in.
    fn factor(&mut self, alloc: Global) -> Result<(), AllocError> {
        let count = self.basis.len();
        let columns = self.basis_columns(alloc)?;
        let made = Factoring::of(alloc, columns, count)?;
        let Factoring {
            factors,
            place_of,
            done,
            ..
        } = made;
        self.factors = factors;
        for (place, has) in (0..count).zip(&done) {
            if !*has {
                self.drop_basic(place);
            }
        }
        let mut basis = Vec::with_capacity(alloc, count)?;
        for (row, place) in (0..count).zip(&place_of) {
            if *place == NONE {
                basis.push(self.slack_row(row))?;
                self.factors.order.push(narrow(row))?;
            } else if let Some(old) = self.basis.get(*place as usize) {
                basis.push(*old)?;
            }
        }
        self.basis = basis;
        Ok(())
    }

    /// The columns of the basis, in its order.
    fn basis_columns(&self, alloc: Global) -> Result<Lists, AllocError> {
        let mut columns = Lists::new(alloc, self.basis.len())?;
        let mut place: u32 = 0;
        for row in &self.basis {
            match row.variable {
                Variable::Column(j) => {
                    if let Some(structural) = self.structurals.get(j as usize) {
                        for entry in &structural.entries {
                            columns.push(entry.row, entry.coef.wrapping_mul(ONE))?;
                        }
                    }
                }
                Variable::Slack(i) => {
                    columns.push(i, ONE)?;
                }
                Variable::Gone => {
                    for structural in &self.gone {
                        for entry in &structural.entries {
                            columns.push(entry.row, entry.coef.wrapping_mul(ONE))?;
                        }
                    }
                }
            }
            columns.close(place);
            place = place.wrapping_add(1);
        }
        Ok(columns)
    }

    /// Takes a basic variable out of the basis, to its lower bound.
    fn drop_basic(&mut self, place: usize) {
        if let Some(old) = self.basis.get(place).copied() {
            let state = if old.low == old.high {
                State::Fixed
            } else {
                State::AtLower
            };
            self.put(old.variable, state, 0);
        }
    }

    /// A basis row of a row's slack, which goes into the basis.
    fn slack_row(&mut self, row: usize) -> BasisRow {
        let variable = Variable::Slack(narrow(row));
        self.put(variable, State::Basic, 0);
        match self.slacks.get(row) {
            Some(slack) => BasisRow {
                variable,
                value: slack.value,
                low: slack.low,
                high: slack.high,
                weight: ONE,
            },
            None => BasisRow {
                variable,
                value: 0,
                low: 0,
                high: 0,
                weight: ONE,
            },
        }
    }

    /// Hands the values of the basis rows to their variables.
    pub(super) fn store_values(&mut self) {
        for row in self.basis.iter() {
            match row.variable {
                Variable::Column(j) => {
                    if let Some(structural) = self.structurals.get_mut(j as usize) {
                        structural.value = row.value;
                    }
                }
                Variable::Slack(i) => {
                    if let Some(slack) = self.slacks.get_mut(i as usize) {
                        slack.value = row.value;
                    }
                }
                Variable::Gone => {
                    if let Some(structural) = self.gone.get_mut(0) {
                        structural.value = row.value;
                    }
                }
            }
        }
    }

    /// What each row lacks to its right side, into `work`.
    fn row_residuals(&mut self) {
        for (to, slack) in self.work.iter_mut().zip(&self.slacks) {
            *to = slack.rhs.wrapping_sub(slack.value);
        }
        take_values_off(&mut self.work, &self.structurals);
        take_values_off(&mut self.work, &self.gone);
    }

    /// Refines the values of the basic variables by what the rows lack.
    fn refine_values(&mut self) {
        self.store_values();
        self.row_residuals();
        self.factors.ftran(&mut self.work);
        for (row, x) in self.basis.iter_mut().zip(&self.work) {
            row.value = row.value.wrapping_add(*x);
        }
        self.store_values();
    }

    /// What the reduced cost of each basic variable lacks to be 0, into `work`.
    fn cost_residuals(&mut self, perturbed: bool) {
        for (row, to) in self.basis.iter().zip(self.work.iter_mut()) {
            *to = match row.variable {
                Variable::Column(j) => match self.structurals.get(j as usize) {
                    Some(structural) => {
                        let perturbation = if perturbed {
                            structural.perturbation
                        } else {
                            0
                        };
                        structural
                            .cost
                            .wrapping_add(perturbation)
                            .wrapping_sub(dot(&structural.entries, &self.duals))
                    }
                    None => 0,
                },
                Variable::Slack(i) => match self.duals.get(i as usize) {
                    Some(y) => y.wrapping_neg(),
                    None => 0,
                },
                Variable::Gone => match self.gone.first() {
                    Some(structural) => {
                        let perturbation = if perturbed {
                            structural.perturbation
                        } else {
                            0
                        };
                        structural
                            .cost
                            .wrapping_add(perturbation)
                            .wrapping_sub(dot(&structural.entries, &self.duals))
                    }
                    None => 0,
                },
            };
        }
    }

    /// Refines the duals so often by what the basic reduced costs lack.
    fn refine_duals(&mut self, perturbed: bool, times: u32) {
        for _ in 0..times {
            self.cost_residuals(perturbed);
            self.factors.btran(&mut self.work);
            for (dual, x) in self.duals.iter_mut().zip(&self.work) {
                *dual = dual.wrapping_add(*x);
            }
        }
    }

    /// Reduced costs anew; a column on the wrong side goes to its other bound, and the values follow.
    pub(super) fn recompute(&mut self) {
        self.refine_duals(true, REFINEMENTS);
        for (structural, priced) in self.structurals.iter_mut().zip(self.priced.iter_mut()) {
            if priced.state != State::Basic {
                priced.reduced_cost = structural
                    .cost
                    .wrapping_add(structural.perturbation)
                    .wrapping_sub(dot(&structural.entries, &self.duals));
                if !structural.fixed {
                    let high = priced.reduced_cost < 0;
                    priced.state = if high { State::AtUpper } else { State::AtLower };
                    structural.value = if high { ONE } else { 0 };
                }
            }
        }
        for (slack, y) in self.slacks.iter_mut().zip(&self.duals) {
            if slack.state != State::Basic {
                slack.reduced_cost = y.wrapping_neg();
            }
        }
        for _ in 0..REFINEMENTS {
            self.refine_values();
        }
    }

    /// The duals by the true costs, and the values.
    pub fn finish(&mut self) {
        self.refine_duals(false, LAST_REFINEMENTS);
        self.refine_values();
    }

    /// Forgets the ray of a program that had no values.
    pub fn clear_ray(&mut self) {
        for far in self.ray.iter_mut() {
            *far = 0;
        }
    }

    /// Goes far along the ray that `rho` is, where no values meet the rows: against it where the basic variable is to rise.
    pub fn follow_ray(&mut self, up: bool) {
        let mut most: i64 = 1;
        for x in self.rho.iter() {
            most = most.max(x.wrapping_abs());
        }
        let times = RAY_LENGTH.wrapping_div(most.max(1)).max(1);
        for (far, x) in self.ray.iter_mut().zip(&self.rho) {
            let along = x.wrapping_mul(times);
            *far = if up { along.wrapping_neg() } else { along };
        }
    }
}
