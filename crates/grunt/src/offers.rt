//! Tours found on the way.
ghost use Rattle.std.specs.Prelude.{◌≡◌, ◌≤◌, length, IfOk, IfSome, IsTrue};
ghost use Rattle.tspdef.specs.Tours.{IsTour, steps};
ghost use Rattle.tspdef.specs.Fixed.{AreSteps};
ghost use Rattle.tspdef.specs.Instances.{IsTourOf};
ghost use Rattle.nodelp.specs.Node.{IsClean};
ghost use Rattle.worker.specs.Works.{best_after};

use crate::walk::walk_along;
use cyc::Tour;
use flips::ArrayTour;
use linkern::improve;
use neigh::Neigh;
use simplex::{Lp, LpAnswer};
use std::alloc::{AllocError, Global};
use tspinst::Instance;

/// The tour to which the newest values lead, improved with a kick for each city, if it has the fixed pairs, is shorter than the best length, and the answer
/// is Solved; and the lesser of its length and the best.
pub(crate) fn shorter_tour(
    alloc: Global,
    instance: &Instance,
    near: &Neigh,
    lp: &Lp,
    best: u64,
    seed: u64,
) -> Result<(Option<Tour>, u64), AllocError>
    requires cities { lp.now.n ≡ instance.now.n }
    requires lists { near.now.n ≡ instance.now.n }
    requires clean { IsClean lp.now }
    ensures tour { IfOk result (λ r. IfSome r.0 (IsTourOf instance.now)) }
    ensures lesser { IfOk result (λ r. r.1 ≡ best_after instance.now best r.0) }
    ensures no_longer { IfOk result (λ r. r.1 ≤ best) }
{
    match lp.last() {
        Some(LpAnswer::Solved { x, .. }) => {
            let walk = walk_along(alloc, instance, x)?;
            if !holds_fixed(alloc, instance, &walk)? {
                return Ok((None, best));
            }
            let tour = improve(alloc, instance, near, &walk, instance.n(), seed)?;
            Ok(if_shorter(instance, tour, best))
        }
        _ => Ok((None, best)),
    }
}

/// Whether a tour is one of the instance: it joins the cities of each fixed pair. O(n).
fn holds_fixed(alloc: Global, instance: &Instance, tour: &Tour) -> Result<bool, AllocError>
    requires { IsTour instance.now.n tour.now }
    ensures { IfOk result (λ b. IsTrue b → IsTourOf instance.now tour.now) }
{
    let order = ArrayTour::new(alloc, tour)?;
    Ok(joins_fixed(instance, &order))
}

/// Whether each fixed pair is a step.
fn joins_fixed(instance: &Instance, tour: &ArrayTour) -> bool
    requires { length tour.now ≡ instance.now.n }
    ensures { IsTrue result → AreSteps (steps tour.now) instance.now.fixed }
{
    let _n = instance.n();
    for pair in instance.fixed() {
        if tour.next(pair.0) != pair.1 && tour.prev(pair.0) != pair.1 {
            return false;
        }
    }
    true
}

/// A tour, if it is shorter than the best length, and the lesser of its length and the best.
fn if_shorter(instance: &Instance, tour: Tour, best: u64) -> (Option<Tour>, u64)
    requires { IsTourOf instance.now tour }
    ensures tour { IfSome result.0 (IsTourOf instance.now) }
    ensures lesser { result.1 ≡ best_after instance.now best result.0 }
    ensures no_longer { result.1 ≤ best }
{
    let length = instance.length(&tour);
    if length < best {
        (Some(tour), length)
    } else {
        (None, best)
    }
}
