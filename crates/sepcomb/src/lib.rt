//! Combs that values on pairs of cities violate, found by growing teeth along chains of pairs near one length.
//!
//! The handles are components of the graphs of pairs above a limit, as in the heuristics of Padberg and Rinaldi (1990).
//! [`combs`] is the whole interface.
#![tactic(auto)]

ghost use Rattle.std.specs.Prelude.{◌≡◌, ◌≤◌, ◌↔◌, IsTrue, length, IfOk, IfSome, MatchOption};
ghost use Rattle.std.specs.List.{All};
ghost use Rattle.tspdef.specs.Cuts.{Cut as AnyCut};
ghost use Rattle.sepblos.specs.Violated.{IsWorth};
ghost use Rattle.sepcomb.specs.Combs.{IsCombOf, AreCombsAbove, AreCombs};
ghost use Rattle.sepcomb.specs.Growth.{near_ones};

mod growth;
mod order;
mod tooth;

use cutform::Cut;
use cyc::{CitySet, Entry, Frac};
use fracgraph::components;
use sepblos::{NEAR_ONE, violated_comb};
use std::alloc::{AllocError, Global};

/// The combs that the values violate by 2^10 units or more, by their limits, and then by the least city of their handles.
///
/// For the limits of a quarter, a half and three quarters of one length, the handles are the components of three cities or
/// more of the pairs whose value is above the limit and below one length less 2^10 units. The pairs of a value of a half or
/// more with exactly one city in a handle are gone through by greater value and then lower cities, and each that meets no
/// tooth yet is one. Of an even number of teeth the last is dropped; below three there is no comb. Then each tooth in turn
/// grows outside the handle, from its newest city to the lowest city that a pair near one length joins to it and that no
/// tooth has, as long as there is one. The teeth of a comb are in the order in which they were taken.
///
/// Each city that a tooth grows by takes a pass over the pairs near one length, and the test of a comb a step for each entry, and one
/// for each set where a city of it is in a set: O(entries * handles + grown cities * near pairs), beside what the components take.
/// Handles of fewer than three teeth take two passes.
pub fn combs(alloc: Global, x: &Frac) -> Result<Vec<Cut>, AllocError>
    ensures combs { IfOk result (λ cuts. AreCombs x.now cuts.items) }
    ensures worth { IfOk result (λ cuts. All (IsWorth x.now) cuts.items) }
{
    let near = growth::near_ones(alloc, x)?;
    let none = Vec::new(alloc);
    let low = combs_above(alloc, x, &near, 0x4_0000, none)?;
    let half = combs_above(alloc, x, &near, 0x8_0000, low)?;
    let high = combs_above(alloc, x, &near, 0xc_0000, half)?;
    Ok(high)
}

/// The combs of one limit, after those of others.
fn combs_above(
    alloc: Global,
    x: &Frac,
    near: &[Entry],
    limit: u32,
    others: Vec<Cut>,
) -> Result<Vec<Cut>, AllocError>
    requires near { near.now ≡ near_ones x.now.entries }
    requires worth { All (IsWorth x.now) others.items }
    ensures combs { IfOk result (λ cuts. AreCombsAbove limit x.now others.items cuts.items) }
    ensures worth { IfOk result (λ cuts. All (IsWorth x.now) cuts.items) }
{
    let sets = components(alloc, x, limit, NEAR_ONE)?;
    let mut cuts = others;
    for set in &sets {
        if let Some(cut) = comb_of(alloc, x, near, set)? {
            cuts.push(cut)?;
        }
    }
    Ok(cuts)
}

/// The comb of a handle, where it has one that is violated.
fn comb_of(
    alloc: Global,
    x: &Frac,
    near: &[Entry],
    handle: &CitySet,
) -> Result<Option<Cut>, AllocError>
    requires cities { handle.now.n ≡ x.now.n }
    requires near { near.now ≡ near_ones x.now.entries }
    ensures comb { IfOk result (λ c. MatchOption c ((cut : AnyCut) → ¬ IsCombOf x.now handle.now cut) (IsCombOf x.now handle.now)) }
    ensures worth { IfOk result (λ c. IfSome c (IsWorth x.now)) }
{
    if !is_large(handle) {
        return Ok(None);
    }
    let pairs = order::pairs_of(alloc, x, handle)?;
    if pairs.len() < 3 {
        return Ok(None);
    }
    let teeth = growth::grown(alloc, x, near, handle, &pairs)?;
    let cut = violated_comb(alloc, x, handle, teeth)?;
    Ok(cut)
}

/// Whether a handle has three cities or more.
fn is_large(handle: &CitySet) -> bool
    ensures { IsTrue result ↔ (3 ≤ length handle.now.cities) }
{
    handle.cities().len() >= 3
}
