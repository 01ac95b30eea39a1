//! The best side as a cut.
ghost use Rattle.std.specs.Prelude.{◌≡◌, ◌+◌, ◌<◌, ◌≤◌, ◌&&◌, ℕ, not, IfOk, OnOk};
ghost use Rattle.cutform.specs.declared.error.CutError.TheVariants as CutError;
ghost use Rattle.sepodd.specs.Folding.{differ};
ghost use Rattle.tspdef.specs.Sets.{has, IsSet};
ghost use Rattle.tspdef.specs.Tours.{crosses};
ghost use Rattle.sepodd.specs.Odd.{IsRelaxed};
ghost use Rattle.sepodd.specs.Sides.{IsBest, is_marked, is_turned, is_chosen};
ghost use Rattle.sepodd.specs.Cuts.{IsCutOf, ArePairsTo};

use crate::folding::{differ, is_marked, is_over};
use crate::sides::Best;
use cutform::{Cut, CutError};
use cyc::{CitySet, CitySetError, Frac};
use std::alloc::{AllocError, Global};

/// The cut of the best side, its handle with city 0.
pub fn cut_of(alloc: Global, x: &Frac, best: &Best) -> Result<Cut, AllocError>
    requires relaxed { IsRelaxed x.now }
    requires best { IsBest x.now best.now }
    requires light { best.now.weight < 1048576 }
    ensures { IfOk result (λ c. IsCutOf x.now best.now c) }
{
    let n = x.n();
    let _entries = x.entries();
    let handle = handle_of(alloc, n, &best.side)?;
    let pairs = pairs_of(alloc, x, &best.side, best.turned)?;
    match Cut::odd(alloc, handle, pairs) {
        Ok(cut) => Ok(cut),
        Err(error) => Err(no_memory(error)),
    }
}

/// Memory ran out: the one reason that is left.
fn no_memory(_error: CutError) -> AllocError
    requires { _error ≡ CutError.NoMemory }
{
    AllocError
}

/// The cities that are marked as city 0 is.
pub fn handle_of(alloc: Global, n: u32, side: &[bool]) -> Result<CitySet, AllocError>
    requires many { 3 ≤ n }
    requires few { n ≤ 2000 }
    ensures cities { IfOk result (λ s. s.n ≡ n) }
    ensures set { IfOk result (λ s. IsSet n s.cities) }
    ensures members { IfOk result (λ s. (k : ℕ) → k < n → has s.cities k ≡ not (differ (is_marked side.now k) (is_marked side.now 0))) }
{
    let cities = cities_of(alloc, n, side)?;
    match CitySet::new(alloc, n, cities) {
        Ok(set) => Ok(set),
        Err(CitySetError::NotRising) => unreachable!(),
        Err(CitySetError::NoMemory) => Err(AllocError),
    }
}

/// The same, as a list.
fn cities_of(alloc: Global, n: u32, side: &[bool]) -> Result<Vec<u32>, AllocError>
    ensures set { IfOk result (λ v. IsSet n v.items) }
    ensures members { IfOk result (λ v. (k : ℕ) → k < n → has v.items k ≡ not (differ (is_marked side.now k) (is_marked side.now 0))) }
{
    let home = is_marked(side, 0);
    let mut cities = Vec::new(alloc);
    for k in 0..n {
        if !differ(is_marked(side, k), home) {
            cities.push(k)?;
        }
    }
    Ok(cities)
}

/// The pairs of the cut: those that cross the side and are chosen.
fn pairs_of(
    alloc: Global,
    x: &Frac,
    side: &[bool],
    turned: Option<(u32, u32)>,
) -> Result<Vec<(u32, u32)>, AllocError>
    ensures pairs { IfOk result (λ v. ArePairsTo x.now.n (is_marked side.now) (is_chosen x.now.entries turned) (x.now.n, 0) v.items) }
{
    let n = x.n();
    let mut pairs = Vec::new(alloc);
    for u in 0..n {
        row(x, side, turned, u, &mut pairs)?;
    }
    Ok(pairs)
}

/// Adds the pairs of a city and the cities behind it.
fn row(
    x: &Frac,
    side: &[bool],
    turned: Option<(u32, u32)>,
    u: u32,
    pairs: &mut Vec<(u32, u32)>,
) -> Result<(), AllocError>
    requires below { u < x.now.n }
    requires pairs { ArePairsTo x.now.n (is_marked side.now) (is_chosen x.now.entries turned) (u, 0) pairs.old.items }
    ensures pairs { OnOk result (ArePairsTo x.now.n (is_marked side.now) (is_chosen x.now.entries turned) (u + 1, 0) pairs.new.items) }
{
    let n = x.n();
    for v in u + 1..n {
        if is_wanted(x, side, turned, u, v) {
            pairs.push((u, v))?;
        }
    }
    Ok(())
}

/// Whether a pair crosses the side and is chosen.
fn is_wanted(x: &Frac, side: &[bool], turned: Option<(u32, u32)>, u: u32, v: u32) -> bool
    requires u_below { u < x.now.n }
    requires v_below { v < x.now.n }
    ensures { result ≡ (crosses (is_marked side.now) (u, v) && is_chosen x.now.entries turned u v) }
{
    let crosses = differ(is_marked(side, u), is_marked(side, v));
    let chosen = differ(is_over(x.x(u, v)), is_turned(turned, u, v));
    crosses && chosen
}

/// Whether the pair is the one that is turned over.
pub fn is_turned(turned: Option<(u32, u32)>, u: u32, v: u32) -> bool
    ensures { result ≡ is_turned turned u v }
{
    match turned {
        Some((a, b)) => (a == u && b == v) || (a == v && b == u),
        None => false,
    }
}
