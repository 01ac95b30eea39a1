//! Pivots.
use super::factors::at;
use super::lists::narrow;
use super::numbers::{ONE, div, mul};
use super::tolerances::{INFEASIBILITY, LEAST_COLUMN_ENTRY, MOST_WEIGHT};
use super::{Engine, State, Variable};
use lpcheck::Cells;
use std::alloc::{AllocError, Global};

/// The bounds and the value of a variable that enters.
#[derive(Clone, Copy)]
struct Bounds {
    value: i64,
    low: i64,
    high: i64,
}

/// What an iteration comes to: a pivot, all values within their bounds, or no pivot where there should be one.
#[derive(Clone, Copy, PartialEq, Eq)]
enum Step {
    Pivot,
    Rest,
    Stuck,
}

/// Whether an infeasibility weighs more than the worst so far.
#[inline]
fn is_worse(infeasibility: i64, weight: i64, worst: i64, worst_weight: i64) -> bool {
    let a = i128::from(infeasibility.clamp(0, MOST_WEIGHT));
    let b = i128::from(worst.clamp(0, MOST_WEIGHT));
    let left = a.wrapping_mul(a).wrapping_mul(i128::from(worst_weight));
    let right = b.wrapping_mul(b).wrapping_mul(i128::from(weight));
    left > right
}

/// The state of a variable that leaves the basis at a bound.
#[inline]
fn state_at(low: i64, high: i64, infeasibility: i64) -> State {
    if low == high {
        State::Fixed
    } else if infeasibility > 0 {
        State::AtUpper
    } else {
        State::AtLower
    }
}

impl Engine {
    /// At most so many pivots, until every basic variable is within its bounds, or one shows that no values meet the rows.
    pub fn iterate(
        &mut self,
        alloc: Global,
        table: &[Cells],
        pivots: u32,
    ) -> Result<(), AllocError> {
        self.clear_ray();
        self.begin(alloc)?;
        let mut is_mended = true;
        for _ in 0..pivots {
            if self.factors.is_full() {
                self.refactor(alloc)?;
                is_mended = true;
            }
            match self.try_pivot(table)? {
                Step::Pivot => {
                    self.pivots = self.pivots.wrapping_add(1);
                    is_mended = false;
                }
                Step::Rest if is_mended => break,
                Step::Rest => {
                    self.recompute();
                    is_mended = true;
                }
                Step::Stuck if self.factors.is_fresh() => break,
                Step::Stuck => {
                    self.refactor(alloc)?;
                    is_mended = true;
                }
            }
        }
        self.finish();
        Ok(())
    }

    /// One iteration of the dual simplex. With fresh factors no pivot is left only where the pivot row is a ray of the duals, or
    /// where no pivot is large enough.
    fn try_pivot(&mut self, table: &[Cells]) -> Result<Step, AllocError> {
        let Some((place, infeasibility)) = self.choose_leaving() else {
            return Ok(Step::Rest);
        };
        self.btran_row(place);
        self.price(table)?;
        match self.ratio_test(infeasibility)? {
            Some(variable) => {
                if self.pivot(place, variable)? {
                    return Ok(Step::Pivot);
                }
                Ok(Step::Stuck)
            }
            None => {
                if self.factors.is_fresh() {
                    self.follow_ray(infeasibility < 0);
                }
                Ok(Step::Stuck)
            }
        }
    }

    /// The basis row whose infeasibility weighs most, and by how much it is out of its bounds: negative below.
    pub(super) fn choose_leaving(&self) -> Option<(usize, i64)> {
        let mut place: Option<(usize, i64)> = None;
        let mut worst: i64 = 0;
        let mut weight: i64 = ONE;
        for (i, row) in self.basis.iter().enumerate() {
            let below = row.low.wrapping_sub(row.value);
            let above = row.value.wrapping_sub(row.high);
            let infeasibility = below.max(above);
            if infeasibility > INFEASIBILITY
                && (place.is_none() || is_worse(infeasibility, row.weight, worst, weight))
            {
                worst = infeasibility;
                weight = row.weight;
                place = Some((
                    i,
                    if below > above {
                        below.wrapping_neg()
                    } else {
                        above
                    },
                ));
            }
        }
        place
    }

    /// Takes the row of the inverse of a basis row into `rho`.
    pub(super) fn btran_row(&mut self, place: usize) {
        for to in self.rho.iter_mut() {
            *to = 0;
        }
        if let Some(to) = self.rho.get_mut(place) {
            *to = ONE;
        }
        self.factors.btran_leaving(&mut self.rho);
    }

    fn clear_work(&mut self) {
        for to in self.work.iter_mut() {
            *to = 0;
        }
    }

    /// Writes a variable's column, in terms of the basis, into `work`.
    fn ftran_column(&mut self, variable: Variable) {
        self.clear_work();
        match variable {
            Variable::Column(j) => {
                if let Some(structural) = self.structurals.get(j as usize) {
                    for entry in &structural.entries {
                        if let Some(to) = self.work.get_mut(entry.row as usize) {
                            *to = entry.coef.wrapping_mul(ONE);
                        }
                    }
                }
            }
            Variable::Slack(i) => {
                if let Some(to) = self.work.get_mut(i as usize) {
                    *to = ONE;
                }
            }
            Variable::Gone => {}
        }
        self.factors.ftran_entering(&mut self.work);
    }

    /// Puts the columns of `flips` at their other bounds, and moves the values of the basic variables.
    fn flip(&mut self) {
        if self.flips.is_empty() {
            return;
        }
        self.clear_work();
        for place in &self.flips {
            if let (Some(structural), Some(priced)) = (
                self.structurals.get_mut(*place as usize),
                self.priced.get_mut(*place as usize),
            ) {
                let up = priced.state == State::AtLower;
                priced.state = if up { State::AtUpper } else { State::AtLower };
                structural.value = if up { ONE } else { 0 };
                let change = if up { ONE } else { -ONE };
                for entry in &structural.entries {
                    if let Some(to) = self.work.get_mut(entry.row as usize) {
                        *to = to.wrapping_add(entry.coef.wrapping_mul(change));
                    }
                }
            }
        }
        self.factors.ftran(&mut self.work);
        for (row, x) in self.basis.iter_mut().zip(&self.work) {
            row.value = row.value.wrapping_sub(*x);
        }
    }

    /// The value and the bounds of a variable.
    fn bounds_of(&self, variable: Variable) -> Bounds {
        match variable {
            Variable::Column(j) => match self.structurals.get(j as usize) {
                Some(structural) => Bounds {
                    value: structural.value,
                    low: 0,
                    high: ONE,
                },
                None => Bounds {
                    value: 0,
                    low: 0,
                    high: 0,
                },
            },
            Variable::Slack(i) => match self.slacks.get(i as usize) {
                Some(slack) => Bounds {
                    value: slack.value,
                    low: slack.low,
                    high: slack.high,
                },
                None => Bounds {
                    value: 0,
                    low: 0,
                    high: 0,
                },
            },
            Variable::Gone => Bounds {
                value: 0,
                low: 0,
                high: 0,
            },
        }
    }

    fn reduced_cost_of(&self, variable: Variable) -> i64 {
        match variable {
            Variable::Column(j) => match self.priced.get(j as usize) {
                Some(priced) => priced.reduced_cost,
                None => 0,
            },
            Variable::Slack(i) => match self.slacks.get(i as usize) {
                Some(slack) => slack.reduced_cost,
                None => 0,
            },
            Variable::Gone => 0,
        }
    }

    /// Puts a variable into a state, with its reduced cost.
    pub(super) fn put(&mut self, variable: Variable, state: State, reduced_cost: i64) {
        match variable {
            Variable::Column(j) => {
                if let (Some(structural), Some(priced)) = (
                    self.structurals.get_mut(j as usize),
                    self.priced.get_mut(j as usize),
                ) {
                    priced.state = state;
                    priced.reduced_cost = reduced_cost;
                    structural.value = match state {
                        State::Basic => structural.value,
                        State::Fixed => structural.fixed_value,
                        State::AtLower => 0,
                        State::AtUpper => ONE,
                    };
                }
            }
            Variable::Slack(i) => {
                if let Some(slack) = self.slacks.get_mut(i as usize) {
                    slack.state = state;
                    slack.reduced_cost = reduced_cost;
                    slack.value = match state {
                        State::Basic => slack.value,
                        State::AtLower | State::Fixed => slack.low,
                        State::AtUpper => slack.high,
                    };
                }
            }
            Variable::Gone => {
                if let Some(structural) = self.gone.get_mut(0) {
                    structural.value = 0;
                }
            }
        }
    }

    /// Moves the reduced costs by a dual step along the pivot row.
    fn update_reduced_costs(&mut self, dual_step: i64) {
        for place in &self.pivot_columns {
            if let Some(priced) = self.priced.get_mut(*place as usize) {
                priced.reduced_cost = priced
                    .reduced_cost
                    .wrapping_sub(mul(dual_step, at(&self.pivot_row, *place)));
            }
        }
        for (slack, entry) in self.slacks.iter_mut().zip(&self.rho) {
            if *entry != 0 {
                slack.reduced_cost = slack.reduced_cost.wrapping_sub(mul(dual_step, *entry));
            }
        }
    }

    /// Moves the values of the basic variables by a primal step along the entering column, and grows their weights.
    fn update_basis(&mut self, primal_step: i64, reciprocal: i64, weight: i64) {
        for (row, entry) in self.basis.iter_mut().zip(&self.work) {
            if *entry != 0 {
                row.value = row.value.wrapping_sub(mul(primal_step, *entry));
                let ratio = mul(*entry, reciprocal);
                let grown = mul(mul(ratio, ratio), weight).clamp(0, MOST_WEIGHT);
                row.weight = row.weight.max(grown);
            }
        }
    }

    /// A variable enters for the one of a basis row: whether its entry there is large enough.
    pub(super) fn pivot(&mut self, place: usize, entering: Variable) -> Result<bool, AllocError> {
        self.flip();
        self.ftran_column(entering);
        let entry = at(&self.work, narrow(place));
        let bounds = self.bounds_of(entering);
        let Some(leaving) = self.basis.get(place).copied() else {
            return Ok(false);
        };
        if entry.wrapping_abs() < LEAST_COLUMN_ENTRY {
            return Ok(false);
        }
        let below = leaving.low.wrapping_sub(leaving.value);
        let above = leaving.value.wrapping_sub(leaving.high);
        let infeasibility = if below > above {
            below.wrapping_neg()
        } else {
            above
        };
        let primal_step = div(infeasibility, entry);
        let dual_step = div(self.reduced_cost_of(entering), entry);
        self.update_reduced_costs(dual_step);
        self.put(entering, State::Basic, 0);
        let state = state_at(leaving.low, leaving.high, infeasibility);
        self.put(leaving.variable, state, dual_step.wrapping_neg());
        let reciprocal = div(ONE, entry);
        self.update_basis(primal_step, reciprocal, leaving.weight);
        self.factors.push_update(narrow(place), entry)?;
        if let Some(to) = self.basis.get_mut(place) {
            to.variable = entering;
            to.value = bounds.value.wrapping_add(primal_step);
            to.low = bounds.low;
            to.high = bounds.high;
            to.weight = mul(mul(reciprocal, reciprocal), leaving.weight).clamp(ONE, MOST_WEIGHT);
        }
        Ok(true)
    }
}
