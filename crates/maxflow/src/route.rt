//! A greatest flow, or one that is given up at a limit.
ghost use Rattle.std.specs.Prelude.{◌≡◌, ◌<◌, ◌≤◌, ◌^◌, ℕ, Bool, false, length, IfOk, MatchOption};
ghost use Rattle.std.specs.List.{All};
ghost use Rattle.maxflow.specs.Crossings.{crossing, IsPair};
ghost use Rattle.maxflow.specs.Flows.{is_stop, IsBelowAll, IsLeastFlow};

use crate::LeastSide;
use crate::residual::Residual;
use crate::rows::Rows;
use crate::search::Search;
use cyc::Entry;
use std::alloc::{AllocError, Global};

/// The least side of the sets that hold `s` and no stop, where its value is below `limit`.
///
/// What was sent and the room that is left out of a set add up to its crossing weight, for each set that holds `s` and no
/// stop: a shortest path from `s` to a stop leaves each of them once more than it comes back. Where no path is left, no
/// room leads out of what was met. Each path takes from the room out of `s`, so the paths come to an end.
pub fn flow_below(
    alloc: Global,
    n: u32,
    pairs: &[Entry],
    rows: &Rows,
    s: u32,
    stops: &[bool],
    limit: u64,
) -> Result<Option<LeastSide>, AllocError>
    requires many { 3 ≤ n }
    requires few { n ≤ 2000 }
    requires within { All (IsPair n) pairs.now }
    requires small { (p : ℕ → Bool) → crossing pairs.now p < 2 ^ 53 }
    requires first { s < n }
    requires all { length stops.now ≡ n }
    requires free { is_stop stops.now s ≡ false }
    ensures { IfOk result (λ o. MatchOption o
        (IsBelowAll (record { n = n; entries = pairs.now }) s stops.now limit)
        (λ f. IsLeastFlow (record { n = n; entries = pairs.now }) s stops.now f × (f.value < limit))) }
{
    let mut residual = Residual::of(alloc, n, pairs)?;
    let mut search = Search::new(alloc, n, s)?;
    let mut value: u64 = 0;
    while let Some(t) = search.reach(&residual, rows, stops) {
        value += u64::from(residual.send(&search, t));
        if value >= limit {
            return Ok(None);
        }
        search.restart();
    }
    if value >= limit {
        return Ok(None);
    }
    let side = search.side(alloc)?;
    Ok(Some(LeastSide { value, side }))
}

/// The least side of the sets that hold `s` and no stop.
pub fn flow(
    alloc: Global,
    n: u32,
    pairs: &[Entry],
    rows: &Rows,
    s: u32,
    stops: &[bool],
) -> Result<LeastSide, AllocError>
    requires many { 3 ≤ n }
    requires few { n ≤ 2000 }
    requires within { All (IsPair n) pairs.now }
    requires small { (p : ℕ → Bool) → crossing pairs.now p < 2 ^ 53 }
    requires first { s < n }
    requires all { length stops.now ≡ n }
    requires free { is_stop stops.now s ≡ false }
    ensures { IfOk result (λ f. IsLeastFlow (record { n = n; entries = pairs.now }) s stops.now f) }
{
    match flow_below(alloc, n, pairs, rows, s, stops, u64::MAX)? {
        Some(side) => Ok(side),
        None => unreachable!(),
    }
}
