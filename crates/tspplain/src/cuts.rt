//! Cuts.

ghost use Rattle.std.specs.Prelude.{◌≡◌, ◌+◌, ◌*◌, ◌≤◌, ◌↔◌, IsTrue, length};
ghost use Rattle.std.specs.List.{AllByRecursion};
ghost use Rattle.tspdef.specs.Cuts as defs;
ghost use Rattle.tspdef.specs.Laws.{most_crossed};
ghost use Rattle.tspplain.specs.Values.{lists, cut_of};

use crate::odd_cuts::{is_odd, pairs_coefficient};
use crate::sets::{are_disjoint, is_proper, is_set, leaves, meet};
use crate::tours::crosses;
use crate::values::Cut;
use tspdef::cuts_are_small;

/// How many of the sets have exactly one of two cities.
pub fn coefficient(sets: &[Vec<u32>], u: u32, v: u32) -> u128
    ensures value { result ≡ defs.coefficient (lists sets.now) u v }
    ensures bound { result ≤ length sets.now }
{
    match sets.split_first() {
        None => 0,
        Some((set, rest)) => { u128::from(crosses(set.as_slice(), u, v)) + coefficient(rest, u, v) }
    }
}

/// How many of a cut's sets have exactly one of two cities, added up.
fn sets_crossed(n: u32, cut: &Cut, u: u32, v: u32) -> u128
    ensures { result ≡ defs.coefficient (defs.sets_of (cut_of n cut.now)) u v }
{
    match cut {
        Cut::Subtour(set) => u128::from(crosses(set.as_slice(), u, v)),
        Cut::Comb(handle, teeth) => {
            u128::from(crosses(handle.as_slice(), u, v)) + coefficient(teeth.as_slice(), u, v)
        }
        Cut::Odd(handle, pairs) => {
            u128::from(crosses(handle.as_slice(), u, v)) + pairs_coefficient(pairs.as_slice(), u, v)
        }
    }
}

/// How many of a cut's sets have exactly one of two cities: three at most, and of an odd cut of n cities 2n - 1.
pub fn cut_coefficient(n: u32, cut: &Cut, u: u32, v: u32) -> u128
    ensures value { result ≡ defs.coefficient (defs.sets_of (cut_of n cut.now)) u v }
    ensures small { defs.IsCut n (cut_of n cut.now) → result ≤ most_crossed n (cut_of n cut.now) }
    ensures few { defs.IsCut n (cut_of n cut.now) → result ≤ 4096 }
{
    cuts_are_small();
    sets_crossed(n, cut, u, v)
}

/// What a tour's crossings of a cut's sets add up to at least.
pub fn right_side(n: u32, cut: &Cut) -> u128
    ensures value { result ≡ defs.right_side (cut_of n cut.now) }
    ensures small { defs.IsCut n (cut_of n cut.now) → result ≤ 3 * n + 12286 }
{
    cuts_are_small();
    match cut {
        Cut::Subtour(_) => 2,
        Cut::Comb(_, teeth) => 3 * teeth.len() as u128 + 1,
        Cut::Odd(_, pairs) => 3 * pairs.len() as u128 + 1,
    }
}

/// Whether the set has a city in the handle and one outside.
fn is_tooth(n: u32, handle: &[u32], tooth: &[u32]) -> bool
    ensures { IsTrue result ↔ defs.IsTooth n handle.now tooth.now }
{
    is_set(n, tooth) && meet(tooth, handle) && leaves(tooth, handle)
}

/// Whether each set is a tooth of the handle.
fn are_teeth(n: u32, handle: &[u32], teeth: &[Vec<u32>]) -> bool
    ensures { IsTrue result ↔ AllByRecursion (defs.IsTooth n handle.now) (lists teeth.now) }
{
    match teeth.split_first() {
        None => true,
        Some((tooth, rest)) => is_tooth(n, handle, tooth.as_slice()) && are_teeth(n, handle, rest),
    }
}

/// Whether the handle is proper and the teeth are an odd number, three or more, that do not meet.
pub fn is_comb(n: u32, handle: &[u32], teeth: &[Vec<u32>]) -> bool
    ensures { IsTrue result ↔ defs.IsComb n handle.now (lists teeth.now) }
{
    is_proper(n, handle)
        && teeth.len() % 2 == 1
        && teeth.len() >= 3
        && are_teeth(n, handle, teeth)
        && are_disjoint(teeth)
}

/// Whether it is a cut of `n` cities.
pub fn is_cut(n: u32, cut: &Cut) -> bool
    ensures { IsTrue result ↔ defs.IsCut n (cut_of n cut.now) }
{
    match cut {
        Cut::Subtour(set) => is_proper(n, set.as_slice()),
        Cut::Comb(handle, teeth) => is_comb(n, handle.as_slice(), teeth.as_slice()),
        Cut::Odd(handle, pairs) => is_odd(n, handle.as_slice(), pairs.as_slice()),
    }
}
