//! Odd cuts of least weight: the separation of blossom inequalities in their simple form.
//!
//! An odd cut has a handle H and an odd number of pairs F that cross it. Each tour crosses H an even number of times, so it differs from
//! F somewhere among the crossing pairs: with x as values, what crosses H and is not in F and what is missing of one in F add up to
//! one at least (Edmonds 1965). [`least_odd`] finds the least of these sums over all odd cuts (Padberg and Rao 1982), and [`odd_cuts`]
//! hands out the light ones that the same search met, too.
//!
//! Each pair costs the lesser of x and 1 - x, and a pair above a half wants to be in F. So a handle that an odd number of pairs above
//! a half cross weighs just what crosses it of the lesser costs; for any other one some pair's choice is turned over.
//!
//! - Of the odd handles: a least set that parts two groups of cities is odd and the best, or it parts the odd handles into those
//!   of its own cities and those of the others (`uncrossing`).
//! - Of the others: for each pair the least set that it crosses (`turning`; Letchford, Reinelt and Theis 2008).
#![tactic(auto)]

ghost use Rattle.std.specs.Prelude.{◌≡◌, ◌↔◌, IfOk, IsTrue, MatchOption};
ghost use Rattle.sepodd.specs.Folding.{one};
ghost use Rattle.sepodd.specs.Odd.{IsRelaxed, IsBelowAll, IsLeastOdd};
ghost use Rattle.sepodd.specs.Sides.{IsBest};

mod cuts;
mod folding;
mod met;
mod relaxed;
mod sides;
mod turning;
mod uncrossing;

use cutform::Cut;
use cyc::Frac;
pub use relaxed::is_relaxed;
use sides::Best;
use std::alloc::{AllocError, Global};

/// One length, in units.
pub const SCALE: u32 = 0x10_0000;

/// An odd cut and its weight at some values, in units.
#[derive(Debug, Drop)]
pub struct OddCut {
    pub weight: u64,
    pub cut: Cut,
}

/// What a search for odd cuts finds.
#[derive(Debug, Drop)]
pub struct OddCuts {
    /// The least of all odd cuts, where it weighs less than one length.
    pub least: Option<OddCut>,
    /// Odd cuts that the search met and that lack at least half as much to one length as the least does, each once, the least too. A
    /// proposal: nothing is promised of them.
    pub met: Vec<Cut>,
}

/// The least weight of all odd cuts where it is below one length, and a cut that has it, with city 0 in its handle; `None` where no
/// odd cut weighs less than one length. Beside it the cuts that the same search met. Cost: at most n flows and one for each entry, each
/// given up half-way between the least weight so far and one length, and a pass over the entries for each cut that was met.
pub fn odd_cuts(alloc: Global, x: &Frac) -> Result<OddCuts, AllocError>
    requires { IsRelaxed x.now }
    ensures least { IfOk result (λ o. MatchOption o.least (IsBelowAll x.now one) (IsLeastOdd x.now)) }
{
    let best = best_side(alloc, x)?;
    let least = least_cut(alloc, x, &best)?;
    let met = met::met_cuts(alloc, x, &best.met, sides::limit(best.weight))?;
    Ok(OddCuts { least, met })
}

/// The least weight of all odd cuts where it is below one length, and a cut that has it, with city 0 in its handle; `None` where no
/// odd cut weighs less than one length. Cost: that of [`odd_cuts`].
pub fn least_odd(alloc: Global, x: &Frac) -> Result<Option<OddCut>, AllocError>
    requires { IsRelaxed x.now }
    ensures { IfOk result (λ o. MatchOption o (IsBelowAll x.now one) (IsLeastOdd x.now)) }
{
    let cuts = odd_cuts(alloc, x)?;
    Ok(cuts.least)
}

/// The best side of all, with those that were met on the way.
fn best_side(alloc: Global, x: &Frac) -> Result<Best, AllocError>
    requires { IsRelaxed x.now }
    ensures best { IfOk result (λ b. IsBest x.now b) }
    ensures least { IfOk result (λ b. IsBelowAll x.now b.weight) }
{
    let _entries = x.entries();
    let best = sides::none(alloc, x)?;
    let folded = folding::folded(alloc, x)?;
    let best = uncrossing::odd_sides(alloc, x, &folded, best)?;
    let best = turning::turned_sides(alloc, x, &folded, best)?;
    Ok(best)
}

/// The cut of the best side, where it weighs less than one length.
fn least_cut(alloc: Global, x: &Frac, best: &Best) -> Result<Option<OddCut>, AllocError>
    requires relaxed { IsRelaxed x.now }
    requires best { IsBest x.now best.now }
    requires least { IsBelowAll x.now best.now.weight }
    ensures { IfOk result (λ o. MatchOption o (IsBelowAll x.now one) (IsLeastOdd x.now)) }
{
    if best.weight >= u64::from(SCALE) {
        return Ok(None);
    }
    let cut = cuts::cut_of(alloc, x, best)?;
    Ok(Some(OddCut {
        weight: best.weight,
        cut,
    }))
}
