//! Sets of cities that values on pairs cross too little: the separation of subtour cuts.
//!
//! Every tour crosses a proper set of cities twice or more (Dantzig, Fulkerson and Johnson 1954).
//!
//! - [`least_set`] is the least crossing weight of all proper sets, and a set with city 0 that has it.
//! - [`sweep`] finds that and, on its way, many sets of a crossing weight below [`LIGHT`]: a cut for each.
#![tactic(auto)]

ghost use Rattle.std.specs.Prelude.{◌≡◌, ◌<◌, IfOk, length};
ghost use Rattle.std.specs.List.{All};
ghost use Rattle.sepsub.specs.LeastSets.{IsLeastSet, IsViolated};

mod components;
mod groups;
mod growth;
mod sides;
mod unions;

use cyc::{CitySet, Frac};
use maxflow::{Network, shrink};
use std::alloc::{AllocError, Global};

/// What the crossing weight of a set has to stay below for it to be worth a cut: 2^10 units less than a tour's two crossings.
pub const LIGHT: u64 = 2 * 0x10_0000 - 0x400;

/// The least crossing weight of all proper sets, in units, and a set with city 0 that has it.
#[derive(Debug, Drop)]
pub struct LeastSet {
    pub weight: u64,
    pub set: CitySet,
}

/// What one pass over some values found: the least set, and proper sets of a crossing weight below [`LIGHT`].
#[derive(Debug, Drop)]
pub struct Swept {
    pub least: LeastSet,
    pub sets: Vec<CitySet>,
}

/// The least crossing weight of all proper sets, and a set with city 0 that has it.
pub fn least_set(alloc: Global, x: &Frac) -> Result<LeastSet, AllocError>
    ensures { IfOk result (λ l. IsLeastSet x.now l) }
{
    let swept = swept_to(alloc, x, 0)?;
    Ok(swept.least)
}

/// The least set, and light sets, of which there are some wherever the least set is light.
///
/// Where the pairs of positive value do not join all cities, the sets are their components but one, and that of city 0 is a
/// least set. Otherwise the cities are shrunk to groups ([`shrink`]), and flows run between these (`unions`) into a growing set
/// of them (`growth`). Each side below [`LIGHT`] is kept, and the lightest of the groups.
pub fn sweep(alloc: Global, x: &Frac) -> Result<Swept, AllocError>
    ensures least { IfOk result (λ s. IsLeastSet x.now s.least) }
    ensures sets { IfOk result (λ s. All (IsViolated x.now) s.sets.items) }
    ensures some { IfOk result (λ s. s.least.weight < LIGHT → 0 < length s.sets.items) }
{
    swept_to(alloc, x, LIGHT)
}

/// The same, where flows that are neither better than the best so far nor below `reach` are given up.
fn swept_to(alloc: Global, x: &Frac, reach: u64) -> Result<Swept, AllocError>
    ensures least { IfOk result (λ s. IsLeastSet x.now s.least) }
    ensures sets { IfOk result (λ s. All (IsViolated x.now) s.sets.items) }
    ensures some { IfOk result (λ s. s.least.weight < LIGHT → 0 < length s.sets.items) }
{
    let network = Network::of(alloc, x)?;
    let home = components::home(alloc, &network)?;
    if home.is_proper() {
        let sets = components::all_but_one(alloc, &network, &home)?;
        let least = LeastSet {
            weight: 0,
            set: home,
        };
        return Ok(Swept { least, sets });
    }
    let shrunk = shrink(alloc, x)?;
    unions::swept(alloc, x, shrunk, reach)
}
