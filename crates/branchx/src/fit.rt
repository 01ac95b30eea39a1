//! Sets to branch by.
ghost use Rattle.std.specs.Prelude.{◌≡◌, ◌+◌, ◌-◌, ◌*◌, ◌^◌, ◌≤◌, ◌↔◌, IsTrue, IfOk, MatchOption, length, pos};
ghost use Rattle.tspdef.specs.Sets.{has};
ghost use Rattle.tspdef.specs.Bounds.{scale};
ghost use Rattle.maxflow.specs.Crossings.{crossing_weight};
ghost use Rattle.branchx.specs.Choice.{IsFit, IsFirstFit, DoNoneFit};

use crate::path::{Path, is_new};
use cyc::{CitySet, Frac};
use std::alloc::{AllocError, Global};

/// One length, in units.
const SCALE: u64 = 0x10_0000;

/// The first of the sets that fits.
pub fn first_fit(
    alloc: Global,
    x: &Frac,
    path: &Path,
    sets: &[CitySet],
) -> Result<Option<CitySet>, AllocError>
    requires { x.now.n ≡ path.now.n }
    ensures { IfOk result (λ s. MatchOption s (DoNoneFit x.now path.now.conditions sets.now) (IsFirstFit x.now path.now.conditions sets.now)) }
{
    for set in sets {
        if is_fit(x, path, set) {
            return Ok(Some(set.copy(alloc)?));
        }
    }
    Ok(None)
}

/// Whether both children of a split by the set gain by it, and the path has no condition on it or its complement.
fn is_fit(x: &Frac, path: &Path, set: &CitySet) -> bool
    requires { x.now.n ≡ path.now.n }
    ensures { IsTrue result ↔ IsFit x.now path.now.conditions set.now }
{
    has_cities_on_both_sides(x.n(), set) && gains(crossing(x, set)) && is_new(path, set)
}

/// Whether the set and the rest of n cities have three cities or more each.
fn has_cities_on_both_sides(n: u32, set: &CitySet) -> bool
    ensures { IsTrue result ↔ ((3 ≤ length set.now.cities) × (length set.now.cities + 3 ≤ n)) }
{
    let size = set.cities().len();
    size >= 3 && size + 3 <= n as usize
}

/// Whether a crossing weight is a quarter above two lengths and below four at least.
fn gains(weight: u64) -> bool
    ensures { IsTrue result ↔ ((2 * scale + 2 ^ 18 ≤ weight) × (weight ≤ 4 * scale - 2 ^ 18)) }
{
    weight >= 2 * SCALE + SCALE / 4 && weight <= 4 * SCALE - SCALE / 4
}

/// The crossing weight of a set, in units.
fn crossing(x: &Frac, set: &CitySet) -> u64
    ensures { crossing_weight x.now (has set.now.cities) ≡ pos result }
{
    let _n = x.n();
    let mut weight = 0;
    for entry in x.entries() {
        if set.contains(entry.u) != set.contains(entry.v) {
            weight += u64::from(entry.x);
        }
    }
    weight
}
