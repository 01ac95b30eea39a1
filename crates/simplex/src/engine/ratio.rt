//! The ratio test.
//!
//! As the dual step of the leaving variable grows, reduced costs reach 0 one after the other, at the breakpoints. At each
//! the slope of the lower side falls by the size of the column's entry in the pivot row times its range; as long as it stays
//! positive the column goes over to its other bound and the dual step grows on. The variable at which it would not enters:
//! the bound flipping ratio test. (Maros 2003; Kirillova, Gabasov and Kostyukova 1979.)
use super::factors::at;
use super::numbers::{ONE, is_less_ratio, mul};
use super::tolerances::{FAR, INFEASIBILITY, LEAST_ROW_ENTRY};
use super::{Breakpoint, Engine, State, Variable};
use lpcheck::{Cell, Cells};
use std::alloc::AllocError;

/// Whether a variable may enter: its entry in the pivot row, seen in the direction in which the leaving variable is to change,
/// fits its bound.
#[inline]
fn may_enter(state: State, pivot_entry: i64, up: bool) -> bool {
    let signed = if up {
        pivot_entry
    } else {
        pivot_entry.wrapping_neg()
    };
    match state {
        State::AtLower => signed < -LEAST_ROW_ENTRY,
        State::AtUpper => signed > LEAST_ROW_ENTRY,
        State::Basic | State::Fixed => false,
    }
}

/// How far a reduced cost is from 0; none on the wrong side.
#[inline]
fn dual_slack(state: State, reduced_cost: i64) -> i64 {
    let signed = if state == State::AtUpper {
        reduced_cost.wrapping_neg()
    } else {
        reduced_cost
    };
    signed.max(0)
}

/// Adds so many times the cells of a row to a list, an entry for each column.
#[inline]
fn add_cells(list: &mut [i64], cells: &[Cell], times: i64) {
    for cell in cells {
        if let Some(to) = list.get_mut(cell.column as usize) {
            *to = to.wrapping_add(i64::from(cell.coef).wrapping_mul(times));
        }
    }
}

impl Engine {
    /// The pivot row: what each column has of `rho`. O(cells of the rows that `rho` meets, and columns).
    pub fn price(&mut self, table: &[Cells]) -> Result<(), AllocError> {
        for entry in self.pivot_row.iter_mut() {
            *entry = 0;
        }
        for (factor, cells) in self.rho.iter().zip(table) {
            if *factor != 0 {
                add_cells(&mut self.pivot_row, cells.list(), *factor);
            }
        }
        self.list_pivot_columns()
    }

    /// Lists the columns out of the basis with an entry in the pivot row.
    fn list_pivot_columns(&mut self) -> Result<(), AllocError> {
        self.pivot_columns.clear();
        let mut place: u32 = 0;
        for (entry, priced) in self.pivot_row.iter().zip(&self.priced) {
            if *entry != 0 && priced.state != State::Basic {
                self.pivot_columns.push(place)?;
            }
            place = place.wrapping_add(1);
        }
        Ok(())
    }

    /// Lists the columns that may enter.
    fn list_columns(&mut self, up: bool) -> Result<(), AllocError> {
        for place in &self.pivot_columns {
            let pivot_entry = at(&self.pivot_row, *place);
            if let Some(priced) = self.priced.get(*place as usize) {
                if may_enter(priced.state, pivot_entry, up) {
                    self.breakpoints.push(Breakpoint {
                        variable: Variable::Column(*place),
                        reduced_cost: dual_slack(priced.state, priced.reduced_cost),
                        pivot_entry: pivot_entry.wrapping_abs(),
                        range: ONE,
                    })?;
                }
            }
        }
        Ok(())
    }

    /// Lists the slacks that may enter.
    fn list_slacks(&mut self, up: bool) -> Result<(), AllocError> {
        let mut place: u32 = 0;
        for (slack, pivot_entry) in self.slacks.iter().zip(&self.rho) {
            if *pivot_entry != 0 && may_enter(slack.state, *pivot_entry, up) {
                self.breakpoints.push(Breakpoint {
                    variable: Variable::Slack(place),
                    reduced_cost: dual_slack(slack.state, slack.reduced_cost),
                    pivot_entry: pivot_entry.wrapping_abs(),
                    range: FAR,
                })?;
            }
            place = place.wrapping_add(1);
        }
        Ok(())
    }

    /// The place of the least ratio among the breakpoints, and of the larger entry among equals.
    fn least_breakpoint(&self) -> Option<(usize, Breakpoint)> {
        let mut best: Option<(usize, Breakpoint)> = None;
        for (place, next) in self.breakpoints.iter().enumerate() {
            let better = match best {
                None => true,
                Some((_, old)) => is_less_ratio(
                    next.reduced_cost,
                    next.pivot_entry,
                    old.reduced_cost,
                    old.pivot_entry,
                ),
            };
            if better {
                best = Some((place, *next));
            }
        }
        best
    }

    /// The variable that enters for an infeasibility, and in `flips` the columns that change bounds before it.
    pub(super) fn ratio_test(
        &mut self,
        infeasibility: i64,
    ) -> Result<Option<Variable>, AllocError> {
        self.breakpoints.clear();
        self.flips.clear();
        self.list_columns(infeasibility < 0)?;
        self.list_slacks(infeasibility < 0)?;
        let mut slope = infeasibility.wrapping_abs();
        for _ in 0..self.breakpoints.len() {
            let Some((place, next)) = self.least_breakpoint() else {
                break;
            };
            slope = slope.wrapping_sub(mul(next.pivot_entry, next.range));
            let Variable::Column(column) = next.variable else {
                return Ok(Some(next.variable));
            };
            if slope <= INFEASIBILITY {
                return Ok(Some(next.variable));
            }
            self.flips.push(column)?;
            self.drop_breakpoint(place);
        }
        Ok(None)
    }

    /// Takes a breakpoint off the list.
    fn drop_breakpoint(&mut self, place: usize) {
        if let Some(last) = self.breakpoints.pop() {
            if let Some(to) = self.breakpoints.get_mut(place) {
                *to = last;
            }
        }
    }
}
