//! The core: the pairs that have columns.
ghost use Rattle.std.specs.Prelude.{◌≡◌, ℕ, ◌<◌, true, [], All, OnOk, length, drop, slice_index};
ghost use Rattle.tspdef.specs.Paths.{IsPath};
ghost use Rattle.branchx.specs.Cond.{condition_of, conditions_of};
ghost use Rattle.pricer.specs.Trails.{IsPairBelow};
ghost use Rattle.lpcheck.specs.Added.{any_negative};
ghost use Rattle.nodelp.specs.Duals.{newest_duals};
ghost use Rattle.nodelp.specs.Node.{IsCore};
ghost use Rattle.nodelp.specs.Core.{with_col, with_wanted, AreWanted, IsNegative};

use branchx::{Cond, Path, decided};
use neigh::Neigh;
use simplex::Lp;
use std::alloc::AllocError;
use tspinst::Instance;

/// Adds the column of a pair, unless it has one.
fn add(instance: &Instance, u: u32, v: u32, must: bool, lp: &mut Lp) -> Result<(), AllocError>
    requires cities { lp.old.n ≡ instance.now.n }
    requires ordered { u < v }
    requires within { v < instance.now.n }
    ensures cities { lp.new.n ≡ lp.old.n }
    ensures rows { lp.new.rows ≡ lp.old.rows }
    ensures others { OnOk result (lp.new ≡ record lp.old { cols = lp.new.cols }) }
    ensures cols { OnOk result (lp.new.cols ≡ with_col instance.now u v must lp.old.cols) }
{
    if lp.has_col(u, v) {
        return Ok(());
    }
    lp.add_col(u, v, instance.d(u, v), must)
}

/// Adds the column of the pair that a condition wants, if it wants one.
fn add_condition(instance: &Instance, cond: &Cond, lp: &mut Lp) -> Result<(), AllocError>
    requires cities { lp.old.n ≡ instance.now.n }
    requires pair { IsPairBelow instance.now.n (condition_of cond.now) }
    ensures others { OnOk result (lp.new ≡ record lp.old { cols = lp.new.cols }) }
    ensures cols { OnOk result (lp.new.cols ≡ with_wanted instance.now (condition_of cond.now) lp.old.cols) }
{
    match cond {
        Cond::Fixed(u, v) | Cond::Present(u, v) => add(instance, *u, *v, true, lp),
        Cond::Absent(_, _) | Cond::Two(_) | Cond::Four(_) => Ok(()),
    }
}

/// Adds the columns of all pairs that a path wants.
fn add_wanted(instance: &Instance, conditions: &[Cond], lp: &mut Lp) -> Result<(), AllocError>
    requires cities { lp.old.n ≡ instance.now.n }
    requires is_path { IsPath instance.now.n (conditions_of conditions.now) }
    requires empty { lp.old.cols ≡ [] }
    ensures others { OnOk result (lp.new ≡ record lp.old { cols = lp.new.cols }) }
    ensures wanted { OnOk result (AreWanted instance.now (conditions_of conditions.now) lp.new.cols) }
{
    for cond in conditions {
        add_condition(instance, cond, lp)?;
    }
    Ok(())
}

/// Adds the column of a pair, unless the pair is decided or has one.
fn add_open(instance: &Instance, path: &Path, u: u32, v: u32, lp: &mut Lp) -> Result<(), AllocError>
    requires cities { lp.old.n ≡ instance.now.n }
    requires ordered { u < v }
    requires within { v < instance.now.n }
    requires core { IsCore instance.now path.now.conditions lp.old.cols }
    ensures others { OnOk result (lp.new ≡ record lp.old { cols = lp.new.cols }) }
    ensures core { OnOk result (IsCore instance.now path.now.conditions lp.new.cols) }
{
    if !decided(path, u, v) {
        add(instance, u, v, false, lp)?;
    }
    Ok(())
}

/// Adds the column of a pair, in either order, unless it is decided or has one.
fn add_near(instance: &Instance, path: &Path, u: u32, v: u32, lp: &mut Lp) -> Result<(), AllocError>
    requires cities { lp.old.n ≡ instance.now.n }
    requires from { u < instance.now.n }
    requires to { v < instance.now.n }
    requires core { IsCore instance.now path.now.conditions lp.old.cols }
    ensures others { OnOk result (lp.new ≡ record lp.old { cols = lp.new.cols }) }
    ensures core { OnOk result (IsCore instance.now path.now.conditions lp.new.cols) }
{
    if u < v {
        add_open(instance, path, u, v, lp)
    } else if v < u {
        add_open(instance, path, v, u, lp)
    } else {
        Ok(())
    }
}

/// Adds the undecided pairs of a city and those near to it.
fn add_near_to(
    instance: &Instance,
    near: &[u32],
    path: &Path,
    u: u32,
    lp: &mut Lp,
) -> Result<(), AllocError>
    requires cities { lp.old.n ≡ instance.now.n }
    requires from { u < instance.now.n }
    requires near { (j : ℕ) → j < length near.now → slice_index near.now j < instance.now.n }
    requires core { IsCore instance.now path.now.conditions lp.old.cols }
    ensures others { OnOk result (lp.new ≡ record lp.old { cols = lp.new.cols }) }
    ensures core { OnOk result (IsCore instance.now path.now.conditions lp.new.cols) }
{
    for j in 0..near.len() {
        add_near(instance, path, u, near[j], lp)?;
    }
    Ok(())
}

/// Adds the undecided pairs of all near lists.
fn add_all_near(
    instance: &Instance,
    near: &Neigh,
    path: &Path,
    lp: &mut Lp,
) -> Result<(), AllocError>
    requires cities { lp.old.n ≡ instance.now.n }
    requires near_cities { near.now.n ≡ instance.now.n }
    requires core { IsCore instance.now path.now.conditions lp.old.cols }
    ensures others { OnOk result (lp.new ≡ record lp.old { cols = lp.new.cols }) }
    ensures core { OnOk result (IsCore instance.now path.now.conditions lp.new.cols) }
{
    for u in 0..instance.n() {
        add_near_to(instance, near.of(u), path, u, lp)?;
    }
    Ok(())
}

/// Adds the core of a node: the pairs that its path wants, and the undecided ones of the near lists.
pub fn add_core(
    instance: &Instance,
    near: &Neigh,
    path: &Path,
    lp: &mut Lp,
) -> Result<(), AllocError>
    requires cities { lp.old.n ≡ instance.now.n }
    requires path_cities { path.now.n ≡ instance.now.n }
    requires near_cities { near.now.n ≡ instance.now.n }
    requires empty { lp.old.cols ≡ [] }
    ensures others { OnOk result (lp.new ≡ record lp.old { cols = lp.new.cols }) }
    ensures core { OnOk result (IsCore instance.now path.now.conditions lp.new.cols) }
{
    add_wanted(instance, path.conditions(), lp)?;
    add_all_near(instance, near, path, lp)
}

/// Adds the column of a pair of cities, in either order, unless it is decided or has one. What is no pair of cities is passed over.
fn add_named(
    instance: &Instance,
    path: &Path,
    pair: (u32, u32),
    lp: &mut Lp,
) -> Result<(), AllocError>
    requires cities { lp.old.n ≡ instance.now.n }
    requires core { IsCore instance.now path.now.conditions lp.old.cols }
    ensures others { OnOk result (lp.new ≡ record lp.old { cols = lp.new.cols }) }
    ensures core { OnOk result (IsCore instance.now path.now.conditions lp.new.cols) }
{
    let n = instance.n();
    let (u, v) = pair;
    if u < n && v < n {
        return add_near(instance, path, u, v, lp);
    }
    Ok(())
}

/// Adds the undecided ones of some pairs.
fn add_all_named(
    instance: &Instance,
    path: &Path,
    pairs: &[(u32, u32)],
    lp: &mut Lp,
) -> Result<(), AllocError>
    requires cities { lp.old.n ≡ instance.now.n }
    requires core { IsCore instance.now path.now.conditions lp.old.cols }
    ensures others { OnOk result (lp.new ≡ record lp.old { cols = lp.new.cols }) }
    ensures core { OnOk result (IsCore instance.now path.now.conditions lp.new.cols) }
{
    for at in 0..pairs.len() {
        add_named(instance, path, pairs[at], lp)?;
    }
    Ok(())
}

/// Adds a core that is named: the pairs that the path wants, and the undecided ones of some pairs.
pub fn add_core_of(
    instance: &Instance,
    path: &Path,
    pairs: &[(u32, u32)],
    lp: &mut Lp,
) -> Result<(), AllocError>
    requires cities { lp.old.n ≡ instance.now.n }
    requires path_cities { path.now.n ≡ instance.now.n }
    requires empty { lp.old.cols ≡ [] }
    ensures others { OnOk result (lp.new ≡ record lp.old { cols = lp.new.cols }) }
    ensures core { OnOk result (IsCore instance.now path.now.conditions lp.new.cols) }
{
    add_wanted(instance, path.conditions(), lp)?;
    add_all_named(instance, path, pairs, lp)
}

/// Adds the columns of pairs of negative reduced cost.
pub fn add_pairs(
    instance: &Instance,
    path: &Path,
    pairs: &[(u32, u32)],
    lp: &mut Lp,
) -> Result<(), AllocError>
    requires cities { lp.old.n ≡ instance.now.n }
    requires some { 0 < length pairs.now }
    requires negative { All (IsNegative instance.now path.now.conditions lp.old) pairs.now }
    requires core { IsCore instance.now path.now.conditions lp.old.cols }
    ensures cities { lp.new.n ≡ lp.old.n }
    ensures rows { lp.new.rows ≡ lp.old.rows }
    ensures others { OnOk result (lp.new ≡ record lp.old { cols = lp.new.cols }) }
    ensures core { OnOk result (IsCore instance.now path.now.conditions lp.new.cols) }
    ensures entered { OnOk result (any_negative lp.old.rows (newest_duals lp.old.last) (drop (length lp.old.cols) lp.new.cols) ≡ true) }
{
    for at in 0..pairs.len() {
        let (u, v) = pairs[at];
        add(instance, u, v, false, lp)?;
    }
    Ok(())
}
