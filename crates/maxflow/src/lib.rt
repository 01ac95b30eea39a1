//! Greatest flows between cities over values on pairs, and the least sides that they end at.
//!
//! - [`flow`] parts two cities: the least crossing weight of the sets that hold the one and not the other, and such a set.
//! - [`Network`] answers the same question many times over one list of values, with any number of cities as the far end.
//! - [`shrink`] merges groups of cities that no least set needs to part, so that flows can run between fewer.
//!
//! A flow goes along shortest paths of what room is left (Edmonds and Karp 1972). Its value is the crossing weight of the
//! side that no room leads out of, and of no set that parts the two less (Ford and Fulkerson 1956). The proof keeps one
//! equation for all sets at once: what was sent and the room that is left out of a set add up to its crossing weight.
#![tactic(auto)]

ghost use Rattle.std.specs.Prelude.{◌≡◌, ◌<◌, ◌≢◌, ℕ, true, false, length, IfOk};
ghost use Rattle.maxflow.specs.Crossings.{crossing};
ghost use Rattle.maxflow.specs.Flows.{is_stop, IsLeastSide, IsLeastFlow};

mod groups;
mod network;
mod residual;
mod route;
mod rows;
mod search;
mod shrinking;
mod sums;

use cyc::{CitySet, Frac};
pub use network::Network;
pub use shrinking::{Shrunk, shrink};
use std::alloc::{AllocError, Global};

/// What a greatest flow sends, in units, and the side that it ends at: a set of cities that is crossed by just as much.
#[derive(Debug, Drop)]
pub struct LeastSide {
    pub value: u64,
    pub side: CitySet,
}

/// The least crossing weight of the sets that hold `s` and not `t`, and such a set.
pub fn flow(alloc: Global, x: &Frac, s: u32, t: u32) -> Result<LeastSide, AllocError>
    requires first { s < x.now.n }
    requires second { t < x.now.n }
    requires two { s ≢ t }
    ensures { IfOk result (λ f. IsLeastSide x.now s t f) }
{
    let network = Network::of(alloc, x)?;
    let stops = stop_at(alloc, network.n(), t)?;
    let side = network.flow(alloc, s, &stops)?;
    Ok(side)
}

/// One stop alone.
fn stop_at(alloc: Global, n: u32, t: u32) -> Result<Vec<bool>, AllocError>
    requires { t < n }
    ensures size { IfOk result (λ v. length v.items ≡ n) }
    ensures here { IfOk result (λ v. is_stop v.items t ≡ true) }
    ensures others { IfOk result (λ v. (k : ℕ) → k ≢ t → is_stop v.items k ≡ false) }
{
    let mut stops = vec![in alloc; false; n as usize]?;
    stops[t as usize] = true;
    Ok(stops)
}
