//! Cuts that quick searches propose, for handles of the values and of the cuts that a node's program has.
ghost use Rattle.std.specs.Prelude.{◌≡◌, IfOk};
ghost use Rattle.std.specs.List.{All};
ghost use Rattle.sepblos.specs.Violated.{IsWorth};

use crate::walk::walk_along;
use cutform::{Cut, Kind};
use cyc::{CitySet, Frac};
use intervalcombs::interval_combs;
use sepblos::wider_blossoms;
use std::alloc::{AllocError, Global};
use tspinst::Instance;

/// Cuts that the values miss by 2^10 units or more: combs whose teeth are intervals of the walk along the values, and then
/// blossoms of wider handles. They are looked for even where the pairs of positive value leave the cities in parts: of 1,000 cities most of the first
/// rounds do, and light sets alone are one or two cuts a round there.
pub(crate) fn proposed_cuts(
    alloc: Global,
    instance: &Instance,
    x: &Frac,
    known: &[CitySet],
) -> Result<Vec<Cut>, AllocError>
    requires { x.now.n ≡ instance.now.n }
    ensures { IfOk result (λ cuts. All (IsWorth x.now) cuts.items) }
{
    let walk = walk_along(alloc, instance, x)?;
    let mut cuts = interval_combs(alloc, x, &walk, known)?;
    let mut wider = wider_blossoms(alloc, x)?;
    cuts.append(&mut wider)?;
    Ok(cuts)
}

/// The handles of the combs among some cuts, each once where combs of one handle stand together, as they do in rising order.
pub(crate) fn handles_of(alloc: Global, cuts: &[(Cut, u32)]) -> Result<Vec<CitySet>, AllocError> {
    let mut handles = Vec::new(alloc);
    for (cut, _) in cuts {
        if let Some(handle) = handle_of(cut) {
            if !is_last(&handles, handle) {
                handles.push(handle.copy(alloc)?)?;
            }
        }
    }
    Ok(handles)
}

/// The handle of a comb or an odd cut.
fn handle_of(cut: &Cut) -> Option<&CitySet> {
    match cut.kind() {
        Kind::Comb | Kind::Odd => cut.sets().first(),
        Kind::Subtour => None,
    }
}

/// Whether a set is the last one of some.
fn is_last(sets: &[CitySet], set: &CitySet) -> bool {
    match sets.last() {
        Some(last) => last.cities() == set.cities(),
        None => false,
    }
}
