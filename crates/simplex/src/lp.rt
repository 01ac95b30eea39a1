//! Linear programs.
ghost use Rattle.std.specs.Prelude.{◌≡◌, ◌≤◌, ◌<◌, false, [], ◌∷◌, ◌++◌, length, map, take, Option, Some, None, All, IfOk, IfSome, IfNone, OnOk, OnErr};
ghost use Rattle.lpcheck.specs.Rows.{IsSmall};
ghost use Rattle.lpcheck.specs.Cells.{table_of};
ghost use Rattle.simplex.specs.Columns.{AreColumns, is_col};
ghost use Rattle.simplex.specs.Lp.{IsAnswer, IsSolve, is_counted, duals_in};

use crate::LpAnswer;
use crate::basis::Basis;
use crate::columns::Columns;
use crate::engine::Engine;
use crate::made::{answer_of, is_new_to};
use crate::trial::Trial;
use lpcheck::{Cells, Column, Row, grow_table};
use std::alloc::{AllocError, Global};
use std::marker::Model;
use std::mem;

/// A linear program: the least cost of values from 0 to 1 on some pairs of n cities, its columns, that meet its rows.
/// Rows and columns may be added between solves; the simplex goes on from where it stood. Contracts see the cities, the
/// rows, the columns, how many of each there were at the newest solve, the rounds, and the newest answer.
#[derive(Drop)]
pub struct Lp {
    n: u32,
    rows: Vec<Row>,
    columns: Columns,
    engine: Engine,
    // the coefficients of some first rows and columns
    table: Vec<Cells>,
    tabled_cols: usize,
    old_rows: usize,
    old_cols: usize,
    old_duals: Vec<i64>,
    rounds: u32,
    last: Option<LpAnswer>,
}

/// Whether an answer is rough.
fn is_rough(answer: &LpAnswer) -> bool {
    match answer {
        LpAnswer::Solved { .. } => false,
        LpAnswer::Rough { .. } => true,
    }
}

/// What a solve found: the engine as it stands, the table of all coefficients, whether the solve counts, the answer, and its duals.
#[derive(Drop)]
struct Found {
    engine: Engine,
    table: Vec<Cells>,
    counted: bool,
    answer: LpAnswer,
    duals: Vec<i64>,
}

impl Model for Lp {
    ghost use Rattle.simplex.specs.Lp.{Program};

    ghost Value = { Program };

    ghost use Rattle.simplex.specs.LpInside.{program_of, IsKept};

    ghost view = { program_of };

    ghost invariant = { IsKept };
}

impl Lp {
    /// A program of some rows and no columns.
    pub fn new(alloc: Global, n: u32, rows: Vec<Row>) -> Result<Lp, AllocError>
        requires many { 3 ≤ n }
        requires few { n ≤ 2000 }
        requires small { All IsSmall rows.items }
        requires few_rows { length rows.items ≤ 4194304 }
        ensures { IfOk result (λ lp. lp ≡ record {
          n = n;
          rows = rows.items;
          cols = [];
          old_rows = 0;
          old_cols = 0;
          rounds = 0;
          last = None;
        }) }
    {
        Ok(Lp {
            n,
            rows,
            columns: Columns::new(alloc, n)?,
            engine: Engine::new(alloc),
            table: Vec::new(alloc),
            tabled_cols: 0,
            old_rows: 0,
            old_cols: 0,
            old_duals: Vec::new(alloc),
            rounds: 0,
            last: None,
        })
    }

    /// How many cities there are.
    pub fn n(&self) -> u32
        ensures value { result ≡ self.now.n }
        ensures many { 3 ≤ result }
        ensures few { result ≤ 2000 }
    {
        self.n
    }

    /// The rows, in the order in which they came.
    pub fn rows(&self) -> &[Row]
        ensures value { result.now ≡ self.now.rows }
        ensures small { All IsSmall self.now.rows }
        ensures few { length self.now.rows ≤ 4194304 }
    {
        &self.rows
    }

    /// The columns, in the order in which they came.
    pub fn cols(&self) -> &[Column]
        ensures value { result.now ≡ self.now.cols }
        ensures distinct { AreColumns self.now.n self.now.cols }
        ensures few { length self.now.cols ≤ 4000000 }
    {
        self.columns.all()
    }

    /// Whether there is a column of a pair.
    pub fn has_col(&self, u: u32, v: u32) -> bool
        requires u_below { u < self.now.n }
        requires v_below { v < self.now.n }
        ensures { result ≡ is_col self.now.cols u v }
    {
        self.columns.has(u, v)
    }

    /// A further row.
    pub fn add_row(&mut self, row: Row) -> Result<(), AllocError>
        requires small { IsSmall row }
        requires few { length self.old.rows < 4194304 }
        ensures ok { OnOk result (self.new ≡ record self.old { rows = self.old.rows ++ row ∷ [] }) }
        ensures err { OnErr result (self.new ≡ self.old) }
    {
        Ok(self.rows.push(row)?)
    }

    /// A further column, of a pair that has none: its value is from 0 to 1, or 1 alone where it must be.
    pub fn add_col(&mut self, u: u32, v: u32, cost: u32, must: bool) -> Result<(), AllocError>
        requires ordered { u < v }
        requires within { v < self.old.n }
        requires fresh { is_col self.old.cols u v ≡ false }
        ensures ok { OnOk result (self.new ≡ record self.old { cols = self.old.cols ++ record { u = u; v = v; cost = cost; must = must } ∷ [] }) }
        ensures err { OnErr result (self.new ≡ self.old) }
    {
        self.columns.push(Column { u, v, cost, must })?;
        Ok(())
    }

    /// The newest answer; none before the first solve.
    pub fn last(&self) -> Option<&LpAnswer>
        ensures some { IfSome result (λ a. (self.now.last ≡ Some a.now)) }
        ensures none { IfNone result (self.now.last ≡ None) }
    {
        self.last.as_ref()
    }

    /// How many solves counted: the first one, and each before which a row was added that the values of the solve before
    /// it missed by 2^10 units or more, or a column of negative reduced cost at the duals of that solve.
    pub fn rounds(&self) -> u32
        ensures { result ≡ self.now.rounds }
    {
        self.rounds
    }

    /// Names the basis at which the first solve is to begin. That is a hint: where the solve from there ends rough, it begins
    /// once more at the basis of all slacks. A later solve goes on from the one before it.
    pub fn want(&mut self, basis: Basis)
        ensures { self.new ≡ self.old }
    {
        self.engine.want(basis);
    }

    /// How many pivots the solves made: a hint.
    pub fn pivots(&self) -> u64 {
        self.engine.pivots()
    }

    /// Whether a column is basic since the newest solve: a hint.
    pub fn is_basic(&self, column: usize) -> bool {
        self.engine.is_basic(column)
    }

    /// Whether the slack of a row is basic since the newest solve: a hint.
    pub fn is_slack_basic(&self, row: usize) -> bool {
        self.engine.is_slack_basic(row)
    }

    /// The reduced cost of a column at the duals of the newest solve, in units, up to rounding; 0 where it is basic: a hint.
    pub fn reduced_cost(&self, column: usize) -> i64 {
        self.engine.reduced_cost(column)
    }

    /// A copy on which to try what it would cost to hold a column at one of its bounds: a hint.
    pub fn trial(&self, alloc: Global) -> Result<Trial<'_>, AllocError> {
        Trial::new(alloc, &self.engine, &self.table)
    }

    /// Whether a solve would count.
    fn counts(&self, alloc: Global, table: &[Cells]) -> Result<bool, AllocError>
        requires { table.now ≡ table_of self.now.rows self.now.cols }
        ensures { IfOk result (λ b. b ≡ is_counted self.now) }
    {
        let cols = self.columns.all();
        match &self.last {
            None => Ok(true),
            Some(LpAnswer::Solved { x, .. }) | Some(LpAnswer::Rough { x, .. }) => is_new_to(
                alloc,
                x,
                &self.old_duals,
                table,
                &self.rows,
                cols,
                self.old_cols,
            ),
        }
    }

    /// What a solve finds, by an engine and a table that are given back.
    fn find(
        &self,
        alloc: Global,
        engine: Engine,
        table: Vec<Cells>,
        from: usize,
        pivots: u32,
    ) -> Result<Found, AllocError>
        requires place { from ≤ length self.now.cols }
        requires fewer { length table.items ≤ length self.now.rows }
        requires known { table.items ≡ table_of (take (length table.items) self.now.rows) (take from self.now.cols) }
        ensures table { IfOk result (λ f. f.table.items ≡ table_of self.now.rows self.now.cols) }
        ensures counted { IfOk result (λ f. f.counted ≡ is_counted self.now) }
        ensures answer { IfOk result (λ f. IsAnswer self.now.n self.now.rows self.now.cols f.answer) }
        ensures duals { IfOk result (λ f. duals_in f.answer ≡ f.duals.items) }
    {
        let cols = self.columns.all();
        let table = grow_table(alloc, table, &self.rows, cols, from)?;
        let counted = self.counts(alloc, &table)?;
        let is_wanting = engine.is_wanting();
        let (engine, answer, duals) = self.run(alloc, engine, &table, pivots)?;
        if is_wanting && is_rough(&answer) {
            let (engine, answer, duals) = self.run(alloc, Engine::new(alloc), &table, pivots)?;
            return Ok(Found {
                engine,
                table,
                counted,
                answer,
                duals,
            });
        }
        Ok(Found {
            engine,
            table,
            counted,
            answer,
            duals,
        })
    }

    /// What an engine finds over the whole table, with the answer's duals.
    fn run(
        &self,
        alloc: Global,
        engine: Engine,
        table: &[Cells],
        pivots: u32,
    ) -> Result<(Engine, LpAnswer, Vec<i64>), AllocError>
        requires { table.now ≡ table_of self.now.rows self.now.cols }
        ensures answer { IfOk result (λ r. IsAnswer self.now.n self.now.rows self.now.cols r.1) }
        ensures duals { IfOk result (λ r. duals_in r.1 ≡ r.2.items) }
    {
        let cols = self.columns.all();
        let engine = engine.run(alloc, table, &self.rows, cols, pivots)?;
        let (answer, duals) = answer_of(alloc, self.n, &engine, table, &self.rows, cols)?;
        Ok((engine, answer, duals))
    }

    /// Solves the program by at most so many pivots, going on from the newest solve. The answer is Solved exactly where the
    /// check holds of it; else it is Rough, with the duals at rest.
    pub fn solve(&mut self, alloc: Global, pivots: u32) -> Result<(), AllocError>
        ensures ok { OnOk result (IsSolve self.old self.new) }
        ensures err { OnErr result (self.new ≡ self.old) }
    {
        let engine = mem::replace(&mut self.engine, Engine::new(alloc));
        let table = mem::replace(&mut self.table, Vec::new(alloc));
        let found = self.find(alloc, engine, table, self.tabled_cols, pivots)?;
        self.keep(found);
        Ok(())
    }

    /// Keeps what a solve found.
    fn keep(&mut self, found: Found)
        requires answer { IsAnswer self.old.n self.old.rows self.old.cols found.answer }
        requires duals { duals_in found.answer ≡ found.duals.items }
        requires table { found.table.items ≡ table_of self.old.rows self.old.cols }
        requires counted { found.counted ≡ is_counted self.old }
        ensures { IsSolve self.old self.new }
    {
        let Found {
            engine,
            table,
            counted,
            answer,
            duals,
        } = found;
        let cols = self.columns.all().len();
        self.engine = engine;
        self.table = table;
        self.tabled_cols = cols;
        self.old_rows = self.rows.len();
        self.old_cols = cols;
        self.old_duals = duals;
        self.last = Some(answer);
        if counted {
            self.rounds = self.rounds.saturating_add(1);
        }
    }
}
