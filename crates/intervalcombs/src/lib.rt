//! Combs that values on pairs of cities violate, with intervals of an order of the cities as teeth.
//!
//! Where an order goes mostly along pairs of great value, sets that few values leave are intervals of it, or nearly so. So for a handle
//! the best of all odd sets of disjoint intervals is found by dynamic programming along the order.
//! [`interval_combs`] is the whole interface. All that is here proposes; the filter that decides is `sepblos::violated_comb`.
#![tactic(auto)]

ghost use Rattle.std.specs.Prelude.{◌≡◌, ◌≤◌, length, All, IfOk};
ghost use Rattle.sepblos.specs.Violated.{IsWorth};

mod alike;
mod handles;
mod intervals;
mod programming;
mod room;
mod support;

use crate::alike::best_of_alike;
use crate::handles::{Ground, combs_of};
use crate::intervals::Intervals;
use crate::room::Room;
pub use crate::support::{Arm, Support};
use cutform::Cut;
use cyc::{CitySet, Frac, Tour};
use fracgraph::components;
use std::alloc::{AllocError, Global};

/// One length, in units.
const ONE: u32 = 0x10_0000;

/// How many combs are found at most.
const MANY: usize = 1024;

/// Combs that the values violate by 2^10 units or more, 1,024 at most, with intervals of an order of the cities as teeth.
///
/// The handles are the components, of three cities or more, of the pairs whose value is farther than a margin from 0 and from one length, for margins of
/// 2^-10, 1/16, 1/8, 1/5 and 3/10 of one length; handles that the caller knows of, as those of combs that a program has; and each of
/// these with a city of its border more. The teeth of a handle are the odd set of disjoint intervals of the order, each with a city
/// inside and one outside and of at most 60 cities, of which the values miss the comb by most. Of combs whose handles are alike
/// the one that is missed by most is given. Nothing is said of what is found but that each comb is violated: any search for cuts may
/// miss some (Padberg and Rinaldi 1990; Letchford and Lodi 2002, on combs by dynamic programming).
///
/// The intervals take O(n * longest tooth * pairs of a city) once, and each handle what its pairs, and the places and intervals near
/// its turns cost, beside O(entries * sets) where it has a comb. Room for one step a city is kept through all handles.
pub fn interval_combs(
    alloc: Global,
    x: &Frac,
    order: &Tour,
    known: &[CitySet],
) -> Result<Vec<Cut>, AllocError>
    ensures worth { IfOk result (λ cuts. All (IsWorth x.now) cuts.items) }
    ensures few { IfOk result (λ cuts. length cuts.items ≤ 1024) }
{
    let ground = ground_of(alloc, x, order.cities())?;
    let mut room = Room::of(alloc, order.cities().len())?;
    let first = handles_within(alloc, x, 0x400)?;
    let second = handles_within(alloc, x, 0x1_0000)?;
    let third = handles_within(alloc, x, 0x2_0000)?;
    let fourth = handles_within(alloc, x, 0x3_3333)?;
    let fifth = handles_within(alloc, x, 0x4_cccd)?;
    let none = Vec::new(alloc);
    let cuts = with_combs(alloc, x, &ground, &first, &[], &mut room, none)?;
    let cuts = with_combs(alloc, x, &ground, &second, &first, &mut room, cuts)?;
    let cuts = with_combs(alloc, x, &ground, &third, &second, &mut room, cuts)?;
    let cuts = with_combs(alloc, x, &ground, &fourth, &third, &mut room, cuts)?;
    let cuts = with_combs(alloc, x, &ground, &fifth, &fourth, &mut room, cuts)?;
    let cuts = with_combs(alloc, x, &ground, known, &[], &mut room, cuts)?;
    let mut kept = best_of_alike(alloc, x, &ground.support, cuts)?;
    kept.truncate(MANY);
    Ok(kept)
}

/// The ground along an order.
fn ground_of(alloc: Global, x: &Frac, order: &[u32]) -> Result<Ground, AllocError> {
    let support = Support::of(alloc, x)?;
    let intervals = Intervals::of(alloc, &support, order)?;
    Ok(Ground { support, intervals })
}

/// The components of the pairs whose value is farther than the margin from 0 and from one length.
fn handles_within(alloc: Global, x: &Frac, margin: u32) -> Result<Vec<CitySet>, AllocError>
    requires { margin ≤ 0x10_0000 }
{
    components(alloc, x, margin, ONE - margin)
}

/// The combs of handles of three cities or more that were not seen before, after other cuts.
fn with_combs(
    alloc: Global,
    x: &Frac,
    ground: &Ground,
    handles: &[CitySet],
    seen: &[CitySet],
    room: &mut Room,
    others: Vec<Cut>,
) -> Result<Vec<Cut>, AllocError>
    requires { All (IsWorth x.now) others.items }
    ensures { IfOk result (λ cuts. All (IsWorth x.now) cuts.items) }
{
    let mut cuts = others;
    for handle in handles {
        if is_new(handle, seen) {
            let mut found = combs_of(alloc, x, ground, handle, room)?;
            cuts.append(&mut found)?;
        }
    }
    Ok(cuts)
}

/// Whether a handle has three cities or more, and is none of those seen before.
fn is_new(handle: &CitySet, seen: &[CitySet]) -> bool {
    handle.cities().len() >= 3 && !seen.iter().any(|other| other.cities() == handle.cities())
}
