//! Whether a closing is one of a node.

ghost use Rattle.std.specs.Prelude.{◌≡◌, ℕ, ◌+◌, ◌*◌, ◌^◌, ◌<◌, ◌≤◌, ◌↔◌, ◌⊎◌, IsTrue, nat_abs, length};
ghost use Rattle.std.specs.List.{AllByRecursion};
ghost use Rattle.std.specs.Option.{option_map};
ghost use Rattle.tspdef.specs.Cuts as cut_defs;
ghost use Rattle.tspdef.specs.Paths as path_defs;
ghost use Rattle.tspdef.specs.Closings as defs;
ghost use Rattle.pricer.specs.Trails.{condition_of};

use crate::closing::Closing;
use crate::trail::{Front, Step, Trail, step_at};
use branchx::Path;
use cutform::Cut;
use tspinst::Instance;

/// The greatest size of a dual.
const MOST: u64 = 1 << 62;

/// The greatest number of cut duals, and of clique duals.
const MANY: usize = 4096;

/// Whether a closing fits a node, or the least that is wrong with it.
#[derive(Clone, Copy, Debug, PartialEq, Eq)]
pub enum Fit {
    Fits,
    /// 1: a count is wrong. 2: a dual has a wrong size. 3: a cut is of another number of cities, or the cuts do not rise.
    /// 4: the depths do not rise, or one is past the path or of a condition on a pair.
    Misfit(u32),
}

/// Whether a closing fits the node of a path.
pub fn fits(instance: &Instance, path: &Path, closing: &Closing) -> Fit
    ensures fits { (result ≡ Fit.Fits) ↔ defs.Fits instance.now.n path.now.conditions closing.now }
    ensures misfit { (k : ℕ) → (result ≡ Fit.Misfit k) ↔ defs.IsMisfit instance.now.n path.now.conditions closing.now k }
    ensures closing { result ≡ Fit.Fits → defs.IsClosing instance.now.n path.now.conditions closing.now }
{
    fits_on(instance, Front::whole(path), closing)
}

/// Whether a closing fits the node at the end of a trail.
pub fn fits_on<'a, T: Trail<'a>>(instance: &Instance, trail: T, closing: &Closing) -> Fit
    ensures fits { (result ≡ Fit.Fits) ↔ defs.Fits instance.now.n (T.conditions trail) closing.now }
    ensures misfit { (k : ℕ) → (result ≡ Fit.Misfit k) ↔ defs.IsMisfit instance.now.n (T.conditions trail) closing.now k }
    ensures closing { result ≡ Fit.Fits → defs.IsClosing instance.now.n (T.conditions trail) closing.now }
{
    let n = instance.n();
    if !has_counts(n, closing) {
        Fit::Misfit(1)
    } else if !has_sizes(closing) {
        Fit::Misfit(2)
    } else if !has_cuts(n, closing) {
        Fit::Misfit(3)
    } else if !has_depths(trail, closing) {
        Fit::Misfit(4)
    } else {
        Fit::Fits
    }
}

fn has_counts(n: u32, closing: &Closing) -> bool
    ensures { IsTrue result ↔ defs.HasCounts n closing.now }
{
    closing.city().len() == n as usize
        && closing.cuts().len() <= MANY
        && closing.conds().len() <= MANY
}

fn has_sizes(closing: &Closing) -> bool
    ensures { IsTrue result ↔ defs.HasSizes closing.now }
{
    are_city_sizes(closing.city())
        && are_cut_sizes(closing.cuts())
        && are_cond_sizes(closing.conds())
}

fn are_city_sizes(city: &[i64]) -> bool
    ensures { IsTrue result ↔ AllByRecursion (λ y. nat_abs y ≤ 2 ^ 62) city.now }
{
    let mut rest = city;
    while let Some((y, more)) = rest.split_first() {
        if y.unsigned_abs() > MOST {
            return false;
        }
        rest = more;
    }
    true
}

fn is_dual_size(dual: u64) -> bool
    ensures { IsTrue result ↔ defs.IsDualSize dual }
{
    1 <= dual && dual <= MOST
}

fn are_cut_sizes(cuts: &[(Cut, u64)]) -> bool
    ensures { IsTrue result ↔ AllByRecursion (λ q. defs.IsDualSize q.1) cuts.now }
{
    let mut rest = cuts;
    while let Some((q, more)) = rest.split_first() {
        if !is_dual_size(q.1) {
            return false;
        }
        rest = more;
    }
    true
}

fn are_cond_sizes(conds: &[(u32, u64)]) -> bool
    ensures { IsTrue result ↔ AllByRecursion (λ q. defs.IsDualSize q.1) conds.now }
{
    let mut rest = conds;
    while let Some((q, more)) = rest.split_first() {
        if !is_dual_size(q.1) {
            return false;
        }
        rest = more;
    }
    true
}

fn has_cuts(n: u32, closing: &Closing) -> bool
    ensures { IsTrue result ↔ defs.HasCuts n closing.now }
{
    are_cuts(n, closing.cuts()) && are_rising_cuts(closing.cuts())
}

fn is_of(n: u32, cut: &Cut) -> bool
    ensures { IsTrue result ↔ cut_defs.IsCut n cut.now }
{
    cut.n() == n
}

fn are_cuts(n: u32, cuts: &[(Cut, u64)]) -> bool
    ensures { IsTrue result ↔ AllByRecursion (λ q. cut_defs.IsCut n q.0) cuts.now }
{
    let mut rest = cuts;
    while let Some((q, more)) = rest.split_first() {
        if !is_of(n, &q.0) {
            return false;
        }
        rest = more;
    }
    true
}

fn are_rising_cuts(cuts: &[(Cut, u64)]) -> bool
    ensures { IsTrue result ↔ defs.AreRisingCuts cuts.now }
{
    match cuts.split_first() {
        None => true,
        Some((first, rest)) => rise_behind(&first.0, rest),
    }
}

/// Whether each cut is greater than the one before it, the first greater than a given one.
fn rise_behind(first: &Cut, cuts: &[(Cut, u64)]) -> bool
    ensures { IsTrue result ↔ defs.CutsRise first.now cuts.now }
{
    let mut last = first;
    let mut rest = cuts;
    while let Some((q, more)) = rest.split_first() {
        if !last.cmp(&q.0).is_lt() {
            return false;
        }
        last = &q.0;
        rest = more;
    }
    true
}

fn has_depths<'a, T: Trail<'a>>(trail: T, closing: &Closing) -> bool
    ensures { IsTrue result ↔ defs.HasDepths (T.conditions trail) closing.now }
{
    are_rising_depths(closing.conds()) && names_cliques(trail, closing.conds())
}

fn are_rising_depths(conds: &[(u32, u64)]) -> bool
    ensures { IsTrue result ↔ defs.DepthsRise 0 conds.now }
{
    let mut last = 0;
    let mut rest = conds;
    while let Some((q, more)) = rest.split_first() {
        if q.0 <= last {
            return false;
        }
        last = q.0;
        rest = more;
    }
    true
}

fn is_clique(step: Option<Step<'_>>) -> bool
    ensures { IsTrue result ↔ path_defs.IsClique (option_map condition_of step.entry) }
{
    matches!(step, Some(Step::Two(_) | Step::Four(_)))
}

/// Whether each depth is of a condition on a set. They are gone through from the last one up, as the trail is.
fn names_cliques<'a, T: Trail<'a>>(trail: T, conds: &[(u32, u64)]) -> bool
    ensures { IsTrue result ↔ defs.NamesCliques (T.conditions trail) conds.now }
{
    let mut near = trail;
    let mut rest = conds;
    while let Some((q, more)) = rest.split_last() {
        let (step, there) = step_at(trail, near, q.0);
        if !is_clique(step) {
            return false;
        }
        near = there;
        rest = more;
    }
    true
}
