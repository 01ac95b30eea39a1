//! Columns of distinct pairs.
ghost use Rattle.std.specs.Prelude.{◌≡◌, ◌<◌, ◌≤◌, false, [], ◌∷◌, ◌++◌, length, IfOk, OnOk, OnErr, max, min, ◌+◌, ◌*◌};
ghost use Rattle.simplex.specs.Columns.{is_col, AreColumns};

use lpcheck::Column;
use std::alloc::{AllocError, Global};
use std::marker::Model;

/// Columns over n cities, no two of one pair. Contracts see n and the list.
#[derive(Debug, Drop)]
pub struct Columns {
    n: u32,
    cols: Vec<Column>,
    // of a pair u <= v at place u * n + v: 1 where a column is of it, else 0
    table: Vec<u32>,
}

impl Model for Columns {
    ghost use Rattle.simplex.specs.Columns.{Pairs};

    ghost Value = { Pairs };

    ghost use Rattle.simplex.specs.ColumnsInside.{pairs_of, AreKept};

    ghost view = { pairs_of };

    ghost invariant = { AreKept };
}

impl Columns {
    /// No columns.
    pub fn new(alloc: Global, n: u32) -> Result<Columns, AllocError>
        requires { n ≤ 2000 }
        ensures { IfOk result (λ c. c ≡ record { n = n; cols = [] }) }
    {
        Ok(Columns {
            n,
            cols: Vec::new(alloc),
            table: vec![in alloc; 0; n as usize * n as usize]?,
        })
    }

    /// The columns, in the order in which they came.
    #[inline]
    pub fn all(&self) -> &[Column]
        ensures value { result.now ≡ self.now.cols }
        ensures distinct { AreColumns self.now.n self.now.cols }
        ensures few { length self.now.cols ≤ 4000000 }
    {
        &self.cols
    }

    /// Whether there is a column of a pair.
    pub fn has(&self, u: u32, v: u32) -> bool
        requires u_below { u < self.now.n }
        requires v_below { v < self.now.n }
        ensures { result ≡ is_col self.now.cols u v }
    {
        self.table[cell_of(self.n, u, v)] != 0
    }

    /// A further column, of a new pair.
    pub fn push(&mut self, column: Column) -> Result<(), AllocError>
        requires ordered { column.u < column.v }
        requires within { column.v < self.old.n }
        requires fresh { is_col self.old.cols column.u column.v ≡ false }
        ensures ok { OnOk result (self.new ≡ record self.old { cols = self.old.cols ++ column ∷ [] }) }
        ensures err { OnErr result (self.new ≡ self.old) }
    {
        let cell = cell_of(self.n, column.u, column.v);
        self.cols.push(column)?;
        self.table[cell] = 1;
        Ok(())
    }
}

/// Where the table has a pair.
#[inline]
fn cell_of(n: u32, u: u32, v: u32) -> usize
    requires few { n ≤ 2000 }
    requires u_below { u < n }
    requires v_below { v < n }
    ensures cell { result ≡ min u v * n + max u v }
    ensures within { result < n * n }
{
    u.min(v) as usize * n as usize + u.max(v) as usize
}
