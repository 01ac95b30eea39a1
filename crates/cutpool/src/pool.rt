//! A numbered list of distinct cuts.
ghost use Rattle.std.specs.Prelude.{◌≡◌, ℕ, ◌≤◌, [], length, IfOk, OnErr};
ghost use Rattle.std.specs.List.{All};
ghost use Rattle.tspdef.specs.Cuts.{cities_of, IsCut};
ghost use Rattle.cutpool.specs.Pool.{IsPut, AreDistinctCuts, violated_cuts};

use crate::nears::rows_of;
use crate::violated::is_violated;
use cutform::Cut;
use cyc::Frac;
use indexmap::IndexSet;
use std::alloc::{AllocError, Global};
use std::marker::Model;

/// How many cuts a pool has room for.
const MOST: usize = 65_536;

/// What putting a cut into a pool tells.
#[derive(Clone, Copy, Debug, PartialEq, Eq)]
pub enum Placed {
    /// The number of the cut: that of an equal one, or else it goes last.
    Number(u32),
    /// There is no equal cut, and 65,536 others are there: the cut is left out.
    Full,
}

/// Distinct cuts of n cities, 65,536 at most. Contracts see n and the list of the cuts, in order of number.
#[derive(Drop)]
pub struct CutPool {
    n: u32,
    cuts: IndexSet<Cut>,
}

impl Model for CutPool {
    ghost use Rattle.cutpool.specs.Pool.{Pool};

    ghost Value = { Pool };

    ghost use Rattle.cutpool.specs.PoolInside.{pool_of, IsPool};

    ghost view = { pool_of };

    ghost invariant = { IsPool };
}

impl CutPool {
    /// A pool for cuts of `n` cities, with none in it.
    pub fn new(alloc: Global, n: u32) -> CutPool
        requires many { 3 ≤ n }
        requires few { n ≤ 2000 }
        ensures { result ≡ record { n = n; cuts = [] } }
    {
        CutPool {
            n,
            cuts: IndexSet::new(alloc),
        }
    }

    /// Of how many cities its cuts are.
    pub fn n(&self) -> u32
        ensures value { result ≡ self.now.n }
        ensures many { 3 ≤ result }
        ensures few { result ≤ 2000 }
    {
        self.n
    }

    /// How many cuts are in it.
    pub fn len(&self) -> usize
        ensures value { result ≡ length self.now.cuts }
        ensures few { result ≤ 65536 }
        ensures cuts { All (IsCut self.now.n) self.now.cuts }
        ensures distinct { AreDistinctCuts self.now.cuts }
    {
        self.cuts.len()
    }

    /// Puts a copy of a cut last, where there is no equal one and there is room. On want of memory the pool is as it was.
    ///
    /// O(cities of its sets), in the mean.
    pub fn put(&mut self, alloc: Global, cut: &Cut) -> Result<Placed, AllocError>
        requires { cities_of cut.now ≡ self.old.n }
        ensures put { IfOk result (IsPut self.old self.new cut.now) }
        ensures unchanged { OnErr result (self.new ≡ self.old) }
    {
        let _n = cut.n();
        if let Some(number) = self.cuts.get_index_of(cut) {
            return Ok(Placed::Number(number as u32));
        }
        let number = self.cuts.len();
        if number >= MOST {
            return Ok(Placed::Full);
        }
        let copy = cut.copy(alloc)?;
        self.cuts.insert(copy)?;
        Ok(Placed::Number(number as u32))
    }

    /// Copies of the cuts that the values violate by 2^10 units or more, in order of number.
    ///
    /// A cut is looked at by the pairs of positive value at the cities of its sets, and left as soon as they show that it is
    /// violated by less: O(cities of the sets * pairs at a city) a cut, beside O(n + entries).
    pub fn violated(&self, alloc: Global, x: &Frac) -> Result<Vec<Cut>, AllocError>
        requires { x.now.n ≡ self.now.n }
        ensures violated { IfOk result (λ cuts. cuts.items ≡ violated_cuts x.now self.now.cuts) }
        ensures cuts { IfOk result (λ cuts. All (IsCut x.now.n) cuts.items) }
    {
        let rows = rows_of(alloc, x)?;
        let mut found = Vec::new(alloc);
        for cut in self.cuts.as_slice() {
            if is_violated(x, &rows, cut) {
                found.push(cut.copy(alloc)?)?;
            }
        }
        Ok(found)
    }
}
