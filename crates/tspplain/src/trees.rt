//! Sound and accepted trees.

ghost use Rattle.std.specs.Prelude.{◌≡◌, ◌*◌, ◌≤◌, ◌^◌, ◌↔◌, IsTrue, IfOk, OnOk, ◌++◌, IsOkAnd, pos, neg_ℤ, ◌≤ℤ◌, ℕ, false};
ghost use Rattle.tspdef.specs.Bounds as bound_defs;
ghost use Rattle.tspdef.specs.Paths as path_defs;
ghost use Rattle.tspdef.specs.Trees as defs;
ghost use Rattle.tspplain.specs.Values.{instance_of, path_of};
ghost use Rattle.tspplain.specs.Trees.{tree_of};

use crate::bounds::{SCALE, bound};
use crate::closings::is_closing;
use crate::paths::is_decided;
use crate::sets::is_proper;
use crate::tours::{is_canonical, is_tour_of, tour_length};
use crate::values::{Closing, Condition, Instance, Tree};
use std::alloc::{AllocError, Global};

/// What a leaf's bound must exceed so that no tour is shorter than `length`, in units.
pub fn needed(length: u64) -> i128
    ensures value { result ≡ bound_defs.needed length }
    ensures low { neg_ℤ (pos (2 ^ 20)) ≤ℤ result }
    ensures high { result ≤ℤ pos (2 ^ 84) }
{
    SCALE * i128::from(length) - SCALE
}

/// Whether the duals are a closing on the path whose bound exceeds the number.
fn is_sound_leaf(instance: &Instance, number: i128, path: &[Condition], closing: &Closing) -> bool
    requires { instance.now.n ≤ 2000 }
    ensures { IsTrue result ↔ defs.IsSound (instance_of instance.now) number (path_of path.now) (tree_of instance.now.n (Tree.Closed closing.now)) }
{
    is_closing(instance.n, path, closing) && bound(instance, path, closing) > number
}

/// Whether the pair may be split on after the path.
fn is_free_pair(n: u32, path: &[Condition], u: u32, v: u32) -> bool
    ensures { IsTrue result ↔ (path_defs.IsPair n u v × (path_defs.is_decided (path_of path.now) u v ≡ false)) }
{
    u < v && v < n && !is_decided(path, u, v)
}

/// Whether the tree is sound at the end of the path: each closed leaf's bound exceeds the number, each split has both
/// its children and is of an undecided pair or a proper set. The path is as before afterwards.
fn is_sound(
    alloc: Global,
    instance: &Instance,
    number: i128,
    path: &mut Vec<Condition>,
    tree: &Tree,
) -> Result<bool, AllocError>
    requires { instance.now.n ≤ 2000 }
    ensures sound { IfOk result (λ yes. IsTrue yes ↔ defs.IsSound (instance_of instance.now) number (path_of path.old.items) (tree_of instance.now.n tree.now)) }
    ensures same { OnOk result (path.new.items ≡ path.old.items) }
{
    match tree {
        Tree::Open => Ok(true),
        Tree::Closed(closing) => Ok(is_sound_leaf(instance, number, path.as_slice(), closing)),
        Tree::Edge(u, v, without, with) => {
            if !is_free_pair(instance.n, path.as_slice(), *u, *v) {
                return Ok(false);
            }
            path.push(Condition::Absent(*u, *v))?;
            let first = is_sound(alloc, instance, number, path, without)?;
            let _ = path.pop();
            path.push(Condition::Present(*u, *v))?;
            let second = is_sound(alloc, instance, number, path, with)?;
            let _ = path.pop();
            Ok(first && second)
        }
        Tree::Clique(set, twice, more) => {
            if !is_proper(instance.n, set.as_slice()) {
                return Ok(false);
            }
            path.push(Condition::Two(Vec::from_slice(alloc, set.as_slice())?))?;
            let first = is_sound(alloc, instance, number, path, twice)?;
            let _ = path.pop();
            path.push(Condition::Four(Vec::from_slice(alloc, set.as_slice())?))?;
            let second = is_sound(alloc, instance, number, path, more)?;
            let _ = path.pop();
            Ok(first && second)
        }
    }
}

/// Whether no leaf is open.
pub fn has_none_open(tree: &Tree) -> bool
    ensures { (n : ℕ) → IsTrue result ↔ (defs.open_leaves (tree_of n tree.now) ≡ 0) }
{
    match tree {
        Tree::Open => false,
        Tree::Closed(_) => true,
        Tree::Edge(_, _, without, with) => has_none_open(without) && has_none_open(with),
        Tree::Clique(_, twice, more) => has_none_open(twice) && has_none_open(more),
    }
}

/// Adds the fixed pairs to a path.
#[tactic(auto, using(crate::proofs::PathLemmas::fixed_next, crate::proofs::PathLemmas::none_fixed))]
fn fix_all(path: &mut Vec<Condition>, fixed: &[(u32, u32)]) -> Result<(), AllocError>
    ensures { OnOk result (path_of path.new.items ≡ path_of path.old.items ++ path_defs.fixed_conditions fixed.now) }
{
    match fixed.split_first() {
        None => Ok(()),
        Some((pair, rest)) => {
            path.push(Condition::Fixed(pair.0, pair.1))?;
            fix_all(path, rest)
        }
    }
}

/// Whether the tree is sound for the bound, from the root on.
pub fn is_sound_for(
    alloc: Global,
    instance: &Instance,
    bound: u64,
    tree: &Tree,
) -> Result<bool, AllocError>
    requires { instance.now.n ≤ 2000 }
    ensures { IfOk result (λ yes. IsTrue yes ↔ defs.IsSoundFor (instance_of instance.now) bound (tree_of instance.now.n tree.now)) }
{
    let mut path = Vec::new(alloc);
    fix_all(&mut path, instance.fixed.as_slice())?;
    is_sound(alloc, instance, needed(bound), &mut path, tree)
}

/// Whether the tour is canonical, the length is its length and no less than the bound, and the tree proves that no tour is shorter
/// than the bound.
pub fn is_accepted(
    alloc: Global,
    instance: &Instance,
    tour: &[u32],
    length: u64,
    bound: u64,
    tree: &Tree,
) -> Result<bool, AllocError>
    requires { instance.now.n ≤ 2000 }
    ensures { IfOk result (λ yes. IsTrue yes ↔ defs.IsAccepted (instance_of instance.now) tour.now length bound (tree_of instance.now.n tree.now)) }
{
    let sound = is_sound_for(alloc, instance, bound, tree)?;
    Ok(
        sound
            && is_tour_of(instance, tour)
            && is_canonical(tour)
            && tour_length(instance, tour) == u128::from(length)
            && bound <= length
            && has_none_open(tree),
    )
}
