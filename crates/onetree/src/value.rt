//! The Held-Karp value of some duals, and the length that it proves.

ghost use Rattle.std.specs.Prelude.{◌≡◌, ℕ, ◌*◌, ◌^◌, ◌≤◌, List, length, IfOk, pos, neg_ℤ, ◌+ℤ◌, ◌≤ℤ◌, ◌<ℤ◌};
ghost use Rattle.tspdef.specs.Instances.{IsTourOf, length_in};
ghost use Rattle.tspdef.specs.Bounds.{scale, needed};
ghost use Rattle.tspdef.specs.Sums.{sum_below};
ghost use Rattle.onetree.specs.OneTrees.{AreDuals, IsHeldKarp, dual_of};
ghost use Rattle.onetree.specs.Growing.{IsWithin};

use crate::laws::tours_are_one_trees;
use crate::tree::least_tree;
use std::alloc::{AllocError, Global};
use tspinst::Instance;

/// How many units one length is, less one.
const LESS_THAN_ONE: u128 = (1 << 20) - 1;

/// How many units one length is.
const SCALE: u128 = 1 << 20;

/// The Held-Karp value of some duals, in units: the least weight of a one-tree, and twice the sum of the duals. No tour is shorter
/// (Held and Karp 1970). It takes O(n^2).
///
/// # Errors
///
/// Where memory ran out.
pub fn held_karp(alloc: Global, instance: &Instance, duals: &[i64]) -> Result<i128, AllocError>
    requires { AreDuals instance.now.n duals.now }
    ensures value { IfOk result (λ h. IsHeldKarp instance.now duals.now h) }
    ensures size { IfOk result (λ h. IsWithin (2 ^ 76) h) }
    ensures below { IfOk result (λ h. (tour : List ℕ) → IsTourOf instance.now tour → h ≤ℤ pos (scale * length_in instance.now tour)) }
{
    tours_are_one_trees();
    let sum = sum_of(instance.n(), duals);
    let tree = least_tree(alloc, instance, duals)?;
    Ok(tree.weight + (sum + sum))
}

/// The sum of the duals.
fn sum_of(n: u32, duals: &[i64]) -> i128
    requires few { n ≤ 2000 }
    requires duals { AreDuals n duals.now }
    ensures value { result ≡ sum_below (dual_of duals.now) n }
    ensures size { IsWithin (2 ^ 74) result }
{
    let mut total: i128 = 0;
    for city in 0..n {
        total += i128::from(duals[city as usize]);
    }
    total
}

/// The greatest length that a Held-Karp value proves: the greatest b, from 0, such that the value exceeds the units of length b - 1.
pub fn proved_length(value: i128) -> u64
    requires some { neg_ℤ (pos scale) <ℤ value }
    requires small { value ≤ℤ pos (2 ^ 76) }
    ensures proved { needed result <ℤ value }
    ensures greatest { (b : ℕ) → needed b <ℤ value → b ≤ result }
{
    if value <= 0 {
        return 0;
    }
    ((units_of(value) + LESS_THAN_ONE) / SCALE) as u64
}

/// A positive number without its sign.
fn units_of(value: i128) -> u128
    requires some { pos 0 <ℤ value }
    requires small { value ≤ℤ pos (2 ^ 76) }
    ensures { pos result ≡ value }
{
    value as u128
}
