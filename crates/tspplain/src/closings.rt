//! What makes duals a closing.

ghost use Rattle.std.specs.Prelude.{◌≡◌, ◌≤◌, ◌^◌, ◌↔◌, IsTrue, nat_abs, Some, slice_get};
ghost use Rattle.std.specs.List.{AllByRecursion};
ghost use Rattle.tspdef.specs.Cuts as cut_defs;
ghost use Rattle.tspdef.specs.Paths as path_defs;
ghost use Rattle.tspdef.specs.Closings as defs;
ghost use Rattle.tspplain.specs.Values.{condition_of, path_of, cut_duals_of, clique_duals_of, closing_of};

use crate::cuts::is_cut;
use crate::paths::branch_at;
use crate::values::{CliqueDual, Closing, Condition, CutDual};

/// The greatest size of a dual.
const MOST: u64 = 1 << 62;

/// The greatest number of cut duals, and of clique duals.
const MANY: usize = 4096;

/// Whether there is a dual for each of `n` cities, and few enough others.
pub fn has_counts(n: u32, closing: &Closing) -> bool
    ensures { IsTrue result ↔ defs.HasCounts n (closing_of n closing.now) }
{
    closing.city.len() == n as usize && closing.cuts.len() <= MANY && closing.conds.len() <= MANY
}

/// Whether each city dual is of size 2^62 at most.
fn are_city_sizes(city: &[i64]) -> bool
    ensures { IsTrue result ↔ AllByRecursion (λ y. nat_abs y ≤ 2 ^ 62) city.now }
{
    match city.split_first() {
        None => true,
        Some((y, rest)) => y.unsigned_abs() <= MOST && are_city_sizes(rest),
    }
}

/// Whether a dual is from 1 to 2^62.
fn is_dual_size(dual: u64) -> bool
    ensures { IsTrue result ↔ defs.IsDualSize dual }
{
    1 <= dual && dual <= MOST
}

/// Whether each cut dual is from 1 to 2^62.
fn are_cut_sizes(n: u32, cuts: &[CutDual]) -> bool
    ensures { IsTrue result ↔ AllByRecursion (λ q. defs.IsDualSize q.1) (cut_duals_of n cuts.now) }
{
    match cuts.split_first() {
        None => true,
        Some((q, rest)) => is_dual_size(q.dual) && are_cut_sizes(n, rest),
    }
}

/// Whether each clique dual is from 1 to 2^62.
fn are_clique_sizes(conds: &[CliqueDual]) -> bool
    ensures { IsTrue result ↔ AllByRecursion (λ q. defs.IsDualSize q.1) (clique_duals_of conds.now) }
{
    match conds.split_first() {
        None => true,
        Some((q, rest)) => is_dual_size(q.dual) && are_clique_sizes(rest),
    }
}

/// Whether each dual is of a size that a closing has.
pub fn has_sizes(n: u32, closing: &Closing) -> bool
    ensures { IsTrue result ↔ defs.HasSizes (closing_of n closing.now) }
{
    are_city_sizes(closing.city.as_slice())
        && are_cut_sizes(n, closing.cuts.as_slice())
        && are_clique_sizes(closing.conds.as_slice())
}

/// Whether each is a cut of `n` cities.
fn are_cuts(n: u32, cuts: &[CutDual]) -> bool
    ensures { IsTrue result ↔ AllByRecursion (λ q. cut_defs.IsCut n q.0) (cut_duals_of n cuts.now) }
{
    match cuts.split_first() {
        None => true,
        Some((q, rest)) => is_cut(n, &q.cut) && are_cuts(n, rest),
    }
}

/// Whether the condition is on a set.
fn is_on_set(condition: &Condition) -> bool
    ensures { IsTrue result ↔ path_defs.IsClique (Some (condition_of condition.now)) }
{
    match condition {
        Condition::Fixed(_, _) => false,
        Condition::Absent(_, _) => false,
        Condition::Present(_, _) => false,
        Condition::Two(_) => true,
        Condition::Four(_) => true,
    }
}

/// Whether the condition at a place behind the fixed pairs, from 0 on, is on a set.
fn is_clique_at(path: &[Condition], place: u32) -> bool
    ensures { IsTrue result ↔ path_defs.IsClique (slice_get (path_defs.branches (path_of path.now)) place) }
{
    match branch_at(path, place) {
        None => false,
        Some(condition) => is_on_set(condition),
    }
}

/// Whether the condition at the depth is on a set.
fn is_clique(path: &[Condition], depth: u32) -> bool
    ensures { IsTrue result ↔ path_defs.IsClique (path_defs.condition_at (path_of path.now) depth) }
{
    depth > 0 && is_clique_at(path, depth - 1)
}

/// Whether each depth names a condition on a set.
fn names_cliques(path: &[Condition], conds: &[CliqueDual]) -> bool
    ensures { IsTrue result ↔ defs.NamesCliques (path_of path.now) (clique_duals_of conds.now) }
{
    match conds.split_first() {
        None => true,
        Some((q, rest)) => is_clique(path, q.depth) && names_cliques(path, rest),
    }
}

/// Whether the duals are a closing on the path: its counts, its sizes, cuts of `n` cities, conditions on sets.
pub fn is_closing(n: u32, path: &[Condition], closing: &Closing) -> bool
    ensures { IsTrue result ↔ defs.IsClosing n (path_of path.now) (closing_of n closing.now) }
{
    has_counts(n, closing)
        && has_sizes(n, closing)
        && are_cuts(n, closing.cuts.as_slice())
        && names_cliques(path, closing.conds.as_slice())
}
