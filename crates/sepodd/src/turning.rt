//! The least sets that a pair crosses, with its choice turned over.
ghost use Rattle.std.specs.Prelude.{◌≡◌, ◌≤◌, ℕ, Bool, IfOk};
ghost use Rattle.std.specs.List.{AllByRecursion};
ghost use Rattle.maxflow.specs.Crossings.{crossing};
ghost use Rattle.sepodd.specs.Folding.{folded_entries, folded_crossing};
ghost use Rattle.sepodd.specs.Sides.{IsBest, IsBelowTurned, IsKnown};

use crate::folding;
use crate::sides::{self, Best, Side};
use crate::uncrossing::stop_at;
use cyc::{Entry, Frac};
use maxflow::Network;
use std::alloc::{AllocError, Global};

/// The best so far, or the least side of all with the choice of one crossing pair turned over. A flow is given up where, with
/// what the turning costs, it reaches half-way between the best weight so far and one length.
pub fn turned_sides(alloc: Global, x: &Frac, folded: &Frac, best: Best) -> Result<Best, AllocError>
    requires size { folded.now.n ≡ x.now.n }
    requires entries { folded.now.entries ≡ folded_entries x.now.entries }
    requires small { AllByRecursion (λ e. e.x ≤ 1048576) x.now.entries }
    requires best { IsBest x.now best }
    ensures best { IfOk result (λ b. IsBest x.now b) }
    ensures no_more { IfOk result (λ b. b.weight ≤ best.weight) }
    ensures least { IfOk result (λ b. AllByRecursion (λ e. IsBelowTurned x.now e b.weight) x.now.entries) }
{
    let network = Network::of(alloc, folded)?;
    let best = turned_of(alloc, x, &network, x.entries(), best)?;
    Ok(best)
}

/// The same for some of the entries.
#[tactic(auto, using(crate::proofs::TurningLemmas::turned_start))]
fn turned_of(
    alloc: Global,
    x: &Frac,
    network: &Network,
    entries: &[Entry],
    best: Best,
) -> Result<Best, AllocError>
    requires size { network.now.n ≡ x.now.n }
    requires weights { (p : ℕ → Bool) → crossing network.now.entries p ≡ folded_crossing x.now.entries p }
    requires known { AllByRecursion (IsKnown x.now) entries.now }
    requires best { IsBest x.now best }
    ensures best { IfOk result (λ b. IsBest x.now b) }
    ensures no_more { IfOk result (λ b. b.weight ≤ best.weight) }
    ensures least { IfOk result (λ b. AllByRecursion (λ e. IsBelowTurned x.now e b.weight) entries.now) }
{
    let mut best = best;
    let mut rest = entries;
    while let Some((entry, more)) = rest.split_first() {
        best = turned_at(alloc, x, network, *entry, best)?;
        rest = more;
    }
    Ok(best)
}

/// The best so far, or the least side that an entry crosses with its choice turned over.
fn turned_at(
    alloc: Global,
    x: &Frac,
    network: &Network,
    entry: Entry,
    best: Best,
) -> Result<Best, AllocError>
    requires size { network.now.n ≡ x.now.n }
    requires weights { (p : ℕ → Bool) → crossing network.now.entries p ≡ folded_crossing x.now.entries p }
    requires known { IsKnown x.now entry }
    requires best { IsBest x.now best }
    ensures best { IfOk result (λ b. IsBest x.now b) }
    ensures no_more { IfOk result (λ b. b.weight ≤ best.weight) }
    ensures least { IfOk result (λ b. IsBelowTurned x.now entry b.weight) }
{
    let limit = sides::limit(best.weight);
    let turn = folding::turning(entry.x);
    if turn >= limit {
        return Ok(best);
    }
    let stops = stop_at(alloc, x.n(), entry.v)?;
    let Some(found) = network.flow_below(alloc, entry.u, &stops, limit - turn)? else {
        return Ok(best);
    };
    let side = sides::members_of(alloc, x.n(), &found.side)?;
    if folding::is_odd(x.entries(), &side) {
        let odd = Side {
            weight: found.value,
            side,
            turned: None,
        };
        let best = sides::with_side(alloc, x, best, odd)?;
        return Ok(best);
    }
    let even = Side {
        weight: found.value + turn,
        side,
        turned: Some((entry.u, entry.v)),
    };
    let best = sides::with_side(alloc, x, best, even)?;
    Ok(best)
}
