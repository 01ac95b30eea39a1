//! A shortest tour, by going through all tours.

ghost use Rattle.std.specs.Prelude.{◌≡◌, ◌≤◌, ◌<◌, ◌↔◌, List, ℕ, IfOk, OnOk, IsTrue};
ghost use Rattle.tspdef.specs.Instances as instances;
ghost use Rattle.tspplain.specs.Values.{instance_of};
ghost use Rattle.tspplain.specs.Searches.{IsTourIfAny, IsNoLonger, IsShorter, IsBestFrom, Improves};

use crate::sets::has;
use crate::tours::{is_tour_of, tour_length};
use crate::values::Instance;
use std::alloc::{AllocError, Global};

/// Whether the tour is shorter than the best so far, if there is one.
fn is_shorter(instance: &Instance, tour: &[u32], best: &Option<Vec<u32>>) -> bool
    ensures { IsTrue result ↔ IsShorter (instance_of instance.now) tour.now best.now }
{
    match best {
        None => true,
        Some(other) => tour_length(instance, tour) < tour_length(instance, other.as_slice()),
    }
}

/// Takes the list as the best where it is a tour and shorter.
fn offer(
    alloc: Global,
    instance: &Instance,
    tour: &[u32],
    best: &mut Option<Vec<u32>>,
) -> Result<(), AllocError>
    requires { IsTourIfAny (instance_of instance.now) best.old }
    ensures tour { OnOk result (IsTourIfAny (instance_of instance.now) best.new) }
    ensures best { OnOk result (instances.IsTourOf (instance_of instance.now) tour.now → IsNoLonger (instance_of instance.now) best.new tour.now) }
    ensures improves { OnOk result (Improves (instance_of instance.now) best.old best.new) }
{
    if is_tour_of(instance, tour) && is_shorter(instance, tour, best) {
        *best = Some(Vec::from_slice(alloc, tour)?);
    }
    Ok(())
}

/// Goes through all tours that begin with the front. The front is as before afterwards.
fn extend(
    alloc: Global,
    instance: &Instance,
    front: &mut Vec<u32>,
    best: &mut Option<Vec<u32>>,
) -> Result<(), AllocError>
    requires { IsTourIfAny (instance_of instance.now) best.old }
    ensures tour { OnOk result (IsTourIfAny (instance_of instance.now) best.new) }
    ensures best { OnOk result (IsBestFrom (instance_of instance.now) best.new front.old.items) }
    ensures improves { OnOk result (Improves (instance_of instance.now) best.old best.new) }
    ensures same { OnOk result (front.new.items ≡ front.old.items) }
{
    if front.len() >= instance.n as usize {
        return offer(alloc, instance, front.as_slice(), best);
    }
    for city in 0..instance.n {
        if !has(front.as_slice(), city) {
            front.push(city)?;
            extend(alloc, instance, front, best)?;
            let _ = front.pop();
        }
    }
    Ok(())
}

/// A shortest tour that joins the fixed pairs, by going through all tours; `None` where there is none. Meant for nine cities at most.
pub fn least_tour(alloc: Global, instance: &Instance) -> Result<Option<Vec<u32>>, AllocError>
    ensures tour { IfOk result (λ best. IsTourIfAny (instance_of instance.now) best) }
    ensures least { IfOk result (λ best. (other : List ℕ) → instances.IsTourOf (instance_of instance.now) other → IsNoLonger (instance_of instance.now) best other) }
{
    let mut best = None;
    let mut front = Vec::new(alloc);
    extend(alloc, instance, &mut front, &mut best)?;
    Ok(best)
}
