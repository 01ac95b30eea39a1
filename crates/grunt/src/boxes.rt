//! Cuts that come out of a box and go into it.
ghost use Rattle.std.specs.Prelude.{◌≡◌, ◌≤◌, length, take, IfOk};
ghost use Rattle.std.specs.List.{All, filter};
ghost use Rattle.cutpool.specs.Pool.{is_worth};
ghost use Rattle.sepblos.specs.Violated.{IsWorth};

use cutform::Cut;
use cutpool::{CutBox, worth_adding};
use cyc::Frac;
use std::alloc::{AllocError, Global};

/// How many fetched cuts are added at once at most.
const MANY: usize = 4096;

/// For how many rounds at most a box is passed over.
const LONGEST: u32 = 16;

/// When a node's box is asked: in its first round and as long as it gives something; after it gave nothing, one round later, then two, four, and so on. Values of
/// one node's rounds violate mostly what its own searches find, and a pool of thousands of cuts took a sixth of a search of 500 cities with one
/// grunt, of whom each sees the cuts of all.
#[derive(Clone, Copy)]
pub(crate) struct Turn {
    wait: u32,
    left: u32,
}

impl Turn {
    /// The first round of a node.
    pub(crate) fn first() -> Turn {
        Turn { wait: 1, left: 0 }
    }

    /// Cuts that a box gives where it is its turn, as far as they are of the values' cities and these miss them by 2^10 units or more: the first ones.
    pub(crate) fn fetched<B: CutBox>(
        &mut self,
        alloc: Global,
        shared: &mut B,
        x: &Frac,
    ) -> Result<Vec<Cut>, AllocError>
        ensures worth { IfOk result (λ cuts. All (IsWorth x.now) cuts.items) }
        ensures few { IfOk result (λ cuts. length cuts.items ≤ 4096) }
    {
        if self.left > 0 {
            self.left = self.left.saturating_sub(1);
            return Ok(Vec::new(alloc));
        }
        let fetched = fetched_cuts(alloc, shared, x)?;
        if fetched.is_empty() {
            self.left = self.wait;
            self.wait = self.wait.saturating_mul(2).min(LONGEST);
        } else {
            self.wait = 1;
        }
        Ok(fetched)
    }
}

/// Cuts that a box gives, whatever box it is, as far as they are of the values' cities and these miss them by 2^10 units or more:
/// the first ones.
fn fetched_cuts<B: CutBox>(alloc: Global, shared: &mut B, x: &Frac) -> Result<Vec<Cut>, AllocError>
    ensures worth { IfOk result (λ cuts. All (IsWorth x.now) cuts.items) }
    ensures few { IfOk result (λ cuts. length cuts.items ≤ 4096) }
{
    let fetched = shared.fetch(alloc, x)?;
    sifted(alloc, x, fetched)
}

/// Of some cuts the first ones that are of the values' cities and that these miss by 2^10 units or more.
pub(crate) fn sifted(alloc: Global, x: &Frac, cuts: Vec<Cut>) -> Result<Vec<Cut>, AllocError>
    ensures worth { IfOk result (λ cuts. All (IsWorth x.now) cuts.items) }
    ensures few { IfOk result (λ cuts. length cuts.items ≤ 4096) }
    ensures found { IfOk result (λ found. found.items ≡ take 4096 (filter (is_worth x.now) cuts.items)) }
{
    worth_adding(alloc, x, cuts, MANY)
}

/// Shares some cuts.
pub(crate) fn share_all<B: CutBox>(
    alloc: Global,
    shared: &mut B,
    cuts: &[Cut],
) -> Result<(), AllocError> {
    for cut in cuts {
        shared.share(alloc, cut)?;
    }
    Ok(())
}
