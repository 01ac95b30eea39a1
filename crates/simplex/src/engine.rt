//! The engine: a bounded-variable dual simplex in whole numbers, over a factored basis.
//!
//! Each row is an equation of the columns, which are the structural variables, and a slack of its own. Costs are not
//! negative, so the basis of all slacks is dual feasible, and stays so: the basic variable whose infeasibility weighs most
//! leaves, and the ratio test finds who enters, and which columns go over to their other bound on the way. A new row comes
//! with its slack basic; a new column starts at the bound that its reduced cost asks for: so every solve goes on from the
//! last. A first solve may also begin at a basis that is named, as that of a like program. Costs bear a tiny perturbation, which is
//! a pair's wherever it stands, against cycling; at the end the duals are found anew by
//! the true costs, with iterative refinement. A pivot costs O(entries of the factors, and cells of the rows that the pivot
//! row of the inverse meets). Nothing is proved of it but that it is safe and ends: the check decides what its answer is worth.
//! (Lemke 1954; Forrest and Goldfarb 1992; Maros 2003; Koberstein's survey of the dual simplex.)
use crate::basis::Basis;
use lpcheck::{Cells, Column, Row};
use std::alloc::{AllocError, Global};

mod factoring;
mod factors;
mod growth;
mod lists;
mod numbers;
mod pivot;
mod ratio;
mod refine;
mod start;
mod tolerances;
mod trial;

use factors::Factors;
use lists::Entry;
use numbers::ONE;
use tolerances::COST_BITS;
pub use trial::{End, Stand};

/// Where a variable stands: in the basis, at its lower or upper bound, or at its only value.
#[derive(Clone, Copy, PartialEq, Eq)]
enum State {
    Basic,
    AtLower,
    AtUpper,
    Fixed,
}

/// A variable: a column of the program, the slack of a row, or the column that a named basis has and the program lacks.
#[derive(Clone, Copy)]
enum Variable {
    Column(u32),
    Slack(u32),
    Gone,
}

/// A structural variable, which is a column: its value is from 0 to one, or one value alone where it is fixed.
#[derive(Drop)]
struct Structural {
    cost: i64,
    perturbation: i64,
    fixed: bool,
    fixed_value: i64,
    entries: Vec<Entry>,
    value: i64,
}

/// What pricing knows of a column: its reduced cost, and where it stands.
#[derive(Clone, Copy)]
struct Priced {
    reduced_cost: i64,
    state: State,
}

/// The slack of a row: what its sum lacks to the right side.
#[derive(Clone, Copy)]
struct Slack {
    low: i64,
    high: i64,
    rhs: i64,
    state: State,
    reduced_cost: i64,
    value: i64,
}

/// A basis row: the variable that is basic in it, with its value and its bounds.
#[derive(Clone, Copy)]
struct BasisRow {
    variable: Variable,
    value: i64,
    low: i64,
    high: i64,
    // the Devex reference weight by which the infeasibility is measured
    weight: i64,
}

/// Where the ratio test's dual step reaches a reduced cost of 0.
#[derive(Clone, Copy)]
struct Breakpoint {
    variable: Variable,
    reduced_cost: i64,
    pivot_entry: i64,
    // how far it is from its one bound to the other
    range: i64,
}

/// A basis and its factors, of the rows and columns seen so far. What is not a count is in 2^-32.
#[derive(Drop)]
pub struct Engine {
    structurals: Vec<Structural>,
    priced: Vec<Priced>,
    slacks: Vec<Slack>,
    basis: Vec<BasisRow>,
    factors: Factors,
    // the leaving variable's row of the inverse
    rho: Vec<i64>,
    // a list by rows, for the while
    work: Vec<i64>,
    // the pivot row: an entry for each column
    pivot_row: Vec<i64>,
    // the columns out of the basis whose entry there is not 0
    pivot_columns: Vec<u32>,
    breakpoints: Vec<Breakpoint>,
    // the columns that go over to their other bound
    flips: Vec<u32>,
    duals: Vec<i64>,
    // what a ray adds to each dual, in units
    ray: Vec<i64>,
    // costs are shifted right so far
    cost_shift: u32,
    // where the first solve is to begin
    wanted: Option<Basis>,
    // the column that leaves the basis for good, if there is one, and its pair
    gone: Vec<Structural>,
    gone_pair: (u32, u32),
    // how many there were
    pivots: u64,
}

impl Engine {
    /// An engine that has seen nothing.
    pub fn new(alloc: Global) -> Engine {
        Engine {
            structurals: Vec::new(alloc),
            priced: Vec::new(alloc),
            slacks: Vec::new(alloc),
            basis: Vec::new(alloc),
            factors: Factors::none(alloc),
            rho: Vec::new(alloc),
            work: Vec::new(alloc),
            pivot_row: Vec::new(alloc),
            pivot_columns: Vec::new(alloc),
            breakpoints: Vec::new(alloc),
            flips: Vec::new(alloc),
            duals: Vec::new(alloc),
            ray: Vec::new(alloc),
            cost_shift: 0,
            wanted: None,
            gone: Vec::new(alloc),
            gone_pair: (0, 0),
            pivots: 0,
        }
    }

    /// Takes in the rows and columns that came since, and makes at most so many pivots.
    pub fn run(
        self,
        alloc: Global,
        table: &[Cells],
        rows: &[Row],
        cols: &[Column],
        pivots: u32,
    ) -> Result<Engine, AllocError> {
        let mut engine = self;
        let shift = cost_shift_of(cols);
        if shift > engine.cost_shift && !engine.structurals.is_empty() {
            engine = Engine::new(alloc);
        }
        engine.cost_shift = engine.cost_shift.max(shift);
        let wanted = engine.wanted.take();
        let is_first = engine.structurals.is_empty();
        engine.grow(alloc, table, rows, cols)?;
        if let Some(basis) = wanted {
            if is_first {
                engine.begin_at(alloc, rows, &basis)?;
            }
        }
        engine.iterate(alloc, table, pivots)?;
        Ok(engine)
    }

    /// Names the basis at which the first run is to begin.
    pub fn want(&mut self, basis: Basis) {
        self.wanted = Some(basis);
    }

    /// Whether the next run is to begin at a named basis.
    pub fn is_wanting(&self) -> bool {
        self.wanted.is_some()
    }

    /// How many pivots it made.
    pub fn pivots(&self) -> u64 {
        self.pivots
    }

    /// Whether a column is basic.
    pub fn is_basic(&self, column: usize) -> bool {
        match self.priced.get(column) {
            Some(priced) => priced.state == State::Basic,
            None => false,
        }
    }

    /// Whether the slack of a row is basic.
    pub fn is_slack_basic(&self, row: usize) -> bool {
        match self.slacks.get(row) {
            Some(slack) => slack.state == State::Basic,
            None => true,
        }
    }

    /// The reduced cost of a column, in units; 0 in the basis.
    pub fn reduced_cost(&self, column: usize) -> i64 {
        match self.priced.get(column) {
            Some(priced) if priced.state != State::Basic => {
                priced.reduced_cost >> (12u32.saturating_sub(self.cost_shift).min(12))
            }
            _ => 0,
        }
    }

    /// The value of a column, in units.
    #[inline]
    pub fn value(&self, column: usize) -> u32 {
        match self.structurals.get(column) {
            Some(structural) => (structural.value.wrapping_add(2048).clamp(0, ONE) >> 12) as u32,
            None => 0,
        }
    }

    /// The dual of a row, in units; that of a row of at most counts negative.
    pub fn dual(&self, row: usize) -> i64 {
        let far = self.ray.get(row).copied().unwrap_or(0);
        match (self.duals.get(row), self.slacks.get(row)) {
            (Some(y), Some(slack)) => {
                let units = (*y >> (12u32.saturating_sub(self.cost_shift).min(12))).wrapping_add(
                    far,
                );
                if slack.high > 0 {
                    units.wrapping_neg()
                } else {
                    units
                }
            }
            _ => 0,
        }
    }
}

/// By how much costs are shifted, so that the greatest has about as many bits as it may have.
fn cost_shift_of(cols: &[Column]) -> u32 {
    let mut most = 1u32;
    for column in cols {
        most = most.max(column.cost);
    }
    (32 - COST_BITS).saturating_sub(most.leading_zeros())
}

/// What a column has of a row of numbers.
#[inline]
fn dot(entries: &[Entry], row: &[i64]) -> i64 {
    let mut sum: i64 = 0;
    for entry in entries {
        if let Some(x) = row.get(entry.row as usize) {
            sum = sum.wrapping_add(entry.coef.wrapping_mul(*x));
        }
    }
    sum
}
