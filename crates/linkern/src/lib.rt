//! Chained Lin-Kernighan.
//!
//! [`improve`] makes a tour shorter: a search of variable depth over lists of near cities, and kicks after which it is
//! searched again around the kick. What it returns has the fixed pairs, is never longer than the tour given, and no exchange of
//! two steps that are not fixed, with a near replacement, shortens it.
#![tactic(auto)]

ghost use Rattle.std.specs.Prelude.{◌≡◌, ◌≤◌, length, IfOk, IsTrue};
ghost use Rattle.tspdef.specs.Tours.{steps};
ghost use Rattle.tspdef.specs.Fixed.{AreSteps};
ghost use Rattle.tspdef.specs.Instances.{IsTourOf, length_in};
ghost use Rattle.linkern.specs.Rests.{IsAtRest};

mod ground;
mod kicks;
mod resting;
mod search;

use cyc::Tour;
use flips::ArrayTour;
use neigh::Neigh;
use std::alloc::{AllocError, Global};
use tspinst::Instance;

/// Whether a tour joins the cities of each fixed pair. O(pairs).
fn holds_fixed(instance: &Instance, tour: &ArrayTour) -> bool
    requires { length tour.now ≡ instance.now.n }
    ensures { IsTrue result → AreSteps (steps tour.now) instance.now.fixed }
{
    let _n = instance.n();
    for pair in instance.fixed() {
        if tour.next(pair.0) != pair.1 && tour.prev(pair.0) != pair.1 {
            return false;
        }
    }
    true
}

/// The tour that was found, or else the given one, where that is shorter or the found one lacks a fixed pair.
fn no_longer(
    alloc: Global,
    instance: &Instance,
    found: ArrayTour,
    tour: &Tour,
) -> Result<ArrayTour, AllocError>
    requires { IsTourOf instance.now tour.now }
    ensures size { IfOk result (λ t. length t ≡ instance.now.n) }
    ensures held { IfOk result (λ t. AreSteps (steps t) instance.now.fixed) }
    ensures no_longer { IfOk result (λ t. length_in instance.now t ≤ length_in instance.now tour.now) }
{
    if found.n() == instance.n() && holds_fixed(instance, &found) {
        let cities = found.tour(alloc)?;
        if instance.length(&cities) <= instance.length(tour) {
            return Ok(found);
        }
    }
    ArrayTour::new(alloc, tour)
}

/// A tour of the instance that is no longer than the given one, and at rest: no exchange of two steps that are not fixed, with a
/// replacement in the near lists, shortens it. It is searched for by Lin-Kernighan steps, and then around so many kicks, which are
/// drawn from the seed: the same seed gives the same tour. No fixed step is taken out, and the time is no longer for them.
///
/// The search (`search`, `kicks`) is trusted with nothing: at the end the fixed pairs are looked for and both lengths compared, and
/// a last pass of plain exchanges makes sure of the rest. A kick costs the work around it; the last pass O(n k).
/// Source: Lin and Kernighan 1973; Martin, Otto and Felten 1991; Applegate, Cook and Rohe 2003.
pub fn improve(
    alloc: Global,
    instance: &Instance,
    near: &Neigh,
    tour: &Tour,
    kicks: u32,
    seed: u64,
) -> Result<Tour, AllocError>
    requires tour { IsTourOf instance.now tour.now }
    requires lists { near.now.n ≡ instance.now.n }
    ensures tour { IfOk result (λ t. IsTourOf instance.now t) }
    ensures no_longer { IfOk result (λ t. length_in instance.now t ≤ length_in instance.now tour.now) }
    ensures rest { IfOk result (λ t. IsAtRest instance.now near.now t) }
{
    let found = kicks::searched(alloc, instance, near, tour, kicks, seed)?;
    let mut best = no_longer(alloc, instance, found, tour)?;
    resting::bring_to_rest(instance, near, &mut best);
    let _n = best.n();
    best.tour(alloc)
}

#[cfg(test)]
mod tests;
