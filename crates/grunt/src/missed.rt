//! Cuts that values miss.
ghost use Rattle.std.specs.Prelude.{◌≡◌, ◌≤◌, [], length, IfOk};
ghost use Rattle.std.specs.List.{All};
ghost use Rattle.sepblos.specs.Violated.{IsWorth};
ghost use Rattle.sepblos.specs.Blossoms.{AreBlossoms};
ghost use Rattle.sepcomb.specs.Combs.{AreCombs};
ghost use Rattle.grunt.specs.Missed.{MissesNoCut};

use crate::light::light_cuts;
use crate::proposals::proposed_cuts;
use cutform::Cut;
use cyc::{CitySet, Frac};
use sepblos::blossoms;
use sepcomb::combs;
use std::alloc::{AllocError, Global};
use tspinst::Instance;

/// How many cuts are added at once at most.
const MANY: usize = 4096;

/// Cuts that the values miss by 2^10 units or more, 4,096 at most: the subtour cuts of light sets, and what quick searches propose,
/// also for handles that are known; where both find nothing, blossoms and combs. There is none only where no proper set is light
/// and there is neither a blossom nor a comb.
pub(crate) fn missed_cuts(
    alloc: Global,
    instance: &Instance,
    x: &Frac,
    known: &[CitySet],
) -> Result<Vec<Cut>, AllocError>
    requires cities { x.now.n ≡ instance.now.n }
    ensures worth { IfOk result (λ cuts. All (IsWorth x.now) cuts.items) }
    ensures few { IfOk result (λ cuts. length cuts.items ≤ 4096) }
    ensures none { IfOk result (λ cuts. length cuts.items ≡ 0 → MissesNoCut x.now) }
{
    let mut cuts = light_cuts(alloc, x)?;
    let mut proposed = proposed_cuts(alloc, instance, x, known)?;
    cuts.append(&mut proposed)?;
    let mut cuts = or_candidates(alloc, x, cuts)?;
    cuts.truncate(MANY);
    Ok(cuts)
}

/// Some cuts, or the blossoms and combs where there are none.
fn or_candidates(alloc: Global, x: &Frac, cuts: Vec<Cut>) -> Result<Vec<Cut>, AllocError>
    requires { All (IsWorth x.now) cuts.items }
    ensures worth { IfOk result (λ found. All (IsWorth x.now) found.items) }
    ensures none { IfOk result (λ found. length found.items ≡ 0 → length cuts.items ≡ 0) }
    ensures blossoms { IfOk result (λ found. length found.items ≡ 0 → AreBlossoms x.now []) }
    ensures combs { IfOk result (λ found. length found.items ≡ 0 → AreCombs x.now []) }
{
    if !cuts.is_empty() {
        return Ok(cuts);
    }
    candidates(alloc, x)
}

/// The blossoms, and the combs after them.
fn candidates(alloc: Global, x: &Frac) -> Result<Vec<Cut>, AllocError>
    ensures worth { IfOk result (λ found. All (IsWorth x.now) found.items) }
    ensures blossoms { IfOk result (λ found. length found.items ≡ 0 → AreBlossoms x.now []) }
    ensures combs { IfOk result (λ found. length found.items ≡ 0 → AreCombs x.now []) }
{
    let mut found = blossoms(alloc, x)?;
    let mut grown = combs(alloc, x)?;
    found.append(&mut grown)?;
    Ok(found)
}
