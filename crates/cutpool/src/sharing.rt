//! What a worker on a node sees of a pool.
ghost use Rattle.std.specs.Prelude.{◌≡◌, ◌≢◌, Bool, true, [], IfOk, OnOk, OnErr, IsOk};
ghost use Rattle.std.specs.List.{All};
ghost use Rattle.tspdef.specs.Cuts.{IsCut};
ghost use Rattle.cutpool.specs.Pool.{IsShared, violated_cuts};

use crate::pool::CutPool;
use cutform::Cut;
use cyc::Frac;
use std::alloc::{AllocError, Global};

/// A box that takes cuts and gives cuts. What it gives may be violated or not: whoever fetches asks that again
/// ([`worth_adding`](crate::worth_adding)).
///
/// Of a kind of box one thing is known, whether it is `honest`: then the cuts that it gives are of as many cities as the
/// values. A box that is not may give any cuts.
pub trait CutBox {
    ghost honest: { Bool };

    /// Offers a cut to the box, and tells nothing of what became of it.
    fn share(&mut self, alloc: Global, cut: &Cut) -> Result<(), AllocError>;

    /// Cuts that the values may violate: of an honest box cuts of as many cities as the values have.
    fn fetch(&mut self, alloc: Global, x: &Frac) -> Result<Vec<Cut>, AllocError>
        ensures cuts { honest ≡ true → IfOk result (λ cuts. All (IsCut x.now.n) cuts.items) };
}

/// Cuts of another number of cities, and those for which there is no room, are passed over; values on another number of
/// cities get no cut.
impl CutBox for CutPool {
    ghost honest = { true };

    fn share(&mut self, alloc: Global, cut: &Cut) -> Result<(), AllocError>
        ensures shared { OnOk result (IsShared self.old self.new cut.now) }
        ensures unchanged { OnErr result (self.new ≡ self.old) }
    {
        if cut.n() != self.n() {
            return Ok(());
        }
        self.put(alloc, cut)?;
        Ok(())
    }

    fn fetch(&mut self, alloc: Global, x: &Frac) -> Result<Vec<Cut>, AllocError>
        ensures cuts { IfOk result (λ cuts. All (IsCut x.now.n) cuts.items) }
        ensures violated { x.now.n ≡ self.old.n → IfOk result (λ cuts. cuts.items ≡ violated_cuts x.now self.old.cuts) }
        ensures none { x.now.n ≢ self.old.n → IfOk result (λ cuts. cuts.items ≡ []) }
        ensures unchanged { self.new ≡ self.old }
    {
        if x.n() != self.n() {
            return Ok(Vec::new(alloc));
        }
        self.violated(alloc, x)
    }
}

/// A box that keeps nothing and gives nothing, for whoever works without a pool.
#[derive(Clone, Copy, Debug)]
pub struct NoCuts;

impl CutBox for NoCuts {
    ghost honest = { true };

    fn share(&mut self, _alloc: Global, _cut: &Cut) -> Result<(), AllocError>
        ensures { IsOk result }
    {
        Ok(())
    }

    fn fetch(&mut self, alloc: Global, _x: &Frac) -> Result<Vec<Cut>, AllocError>
        ensures cuts { IfOk result (λ cuts. All (IsCut _x.now.n) cuts.items) }
        ensures none { IfOk result (λ cuts. cuts.items ≡ []) }
        ensures given { IsOk result }
    {
        Ok(Vec::new(alloc))
    }
}
