//! The cuts that a leaf names, taken out of the list while the leaf is priced, and put back: none is copied.
ghost use Rattle.std.specs.Prelude.{◌≡◌, ℕ, ◌+◌, ◌-◌, ◌≤◌, List, [], ◌∷◌, ◌++◌, true, Some, IfOk, OnOk, length};
ghost use Rattle.std.specs.List.{AllByRecursion, swap};
ghost use Rattle.tspdef.specs.Cuts as defs;
ghost use Rattle.certtests.specs.Places.{IsFromOne};
ghost use Rattle.certtests.specs.Moving.{Rise, AreTakenOut};

use cutform::Cut;
use std::alloc::{AllocError, Global};

/// Whether the numbers of cuts rise strictly, from 1.
pub(crate) fn rise(duals: &[(u32, u64)]) -> bool
    ensures { result ≡ true → Rise 1 duals.now }
{
    let mut least = 1u64;
    let mut rest = duals;
    while let Some((first, more)) = rest.split_first() {
        if u64::from(first.0) < least {
            return false;
        }
        least = u64::from(first.0) + 1;
        rest = more;
    }
    true
}

/// Takes the named cuts out of a list, each with its dual, from the last one back. The last cut that is left fills each place. O(named cuts).
pub(crate) fn take_out(
    alloc: Global,
    cuts: &mut Vec<Cut>,
    duals: &[(u32, u64)],
) -> Result<Vec<(Cut, u64)>, AllocError>
    requires numbers { AllByRecursion (λ q. IsFromOne (length cuts.old.items) q.0) duals.now }
    requires rising { Rise 1 duals.now }
    ensures { IfOk result (λ named. AreTakenOut cuts.old.items duals.now cuts.new.items named.items) }
{
    let mut named = Vec::with_capacity(alloc, duals.len())?;
    let mut rest = duals;
    while let Some((last, more)) = rest.split_last() {
        let cut = cuts.swap_remove(last.0 as usize - 1);
        named.push((cut, last.1))?;
        rest = more;
    }
    named.reverse();
    Ok(named)
}

/// Puts the named cuts back, so that the list is what it was. O(named cuts).
pub(crate) fn put_back(
    cuts: &mut Vec<Cut>,
    named: Vec<(Cut, u64)>,
    duals: &[(u32, u64)],
) -> Result<(), AllocError>
    ensures { OnOk result ((before : List defs.Cut) → AreTakenOut before duals.now cuts.old.items named.items → cuts.new.items ≡ before) }
{
    let mut left = named;
    left.reverse();
    let mut rest = duals;
    while let Some((first, more)) = rest.split_first() {
        put_one(cuts, left.pop(), first.0)?;
        rest = more;
    }
    Ok(())
}

/// Puts a cut back at its place, and the one that stood in for it at the end.
fn put_one(cuts: &mut Vec<Cut>, named: Option<(Cut, u64)>, number: u32) -> Result<(), AllocError>
    ensures { OnOk result ((q : defs.Cut × ℕ) → named ≡ Some q → 1 ≤ number → number ≤ length cuts.old.items + 1 → cuts.new.items ≡ swap (cuts.old.items ++ q.0 ∷ []) (number - 1) (length cuts.old.items)) }
{
    if let Some((cut, _)) = named {
        let end = cuts.len();
        cuts.push(cut)?;
        let place = (number as usize).saturating_sub(1);
        if place <= end {
            cuts.swap(place, end);
        }
    }
    Ok(())
}
