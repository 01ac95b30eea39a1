//! Combs that values violate.
ghost use Rattle.std.specs.Prelude.{◌≡◌, ℕ, ◌<◌, ◌≤◌, ◌*◌, ◌^◌, ◌↔◌, ◌||◌, false, IsTrue, IfOk, IfSome, MatchOption, length, map, slice_index_or, pos, ◌-ℤ◌, ◌≤ℤ◌};
ghost use Rattle.tspdef.specs.Cuts.{Cut as AnyCut, sets_of, pair_set, right_side, coefficient, IsCut};
ghost use Rattle.tspdef.specs.Bounds.{scale, violation};
ghost use Rattle.cyc.specs.Frac.{IsEntry, value_of};
ghost use Rattle.cutform.specs.Cut.{cities_of_each};
ghost use Rattle.sepblos.specs.Violated.{IsWorth, IsViolatedComb, is_in_any, AreMarksOf};

use crate::marks::{is_marked, mark};
use cutform::{Cut, CutError};
use cyc::{CitySet, Entry, Frac};
use std::alloc::{AllocError, Global};

/// One length, in units.
const SCALE: u64 = 0x10_0000;

/// By how much a cut has to be violated to be worth adding, in units.
const WORTH: u64 = 0x400;

/// The comb of a handle and teeth, where they are one and the values violate it by 2^10 units or more.
///
/// Each entry takes a step, and each with a city in a set one for each set: O(entries + cities of the sets * near pairs of a city * sets).
pub fn violated_comb(
    alloc: Global,
    x: &Frac,
    handle: &CitySet,
    teeth: Vec<CitySet>,
) -> Result<Option<Cut>, AllocError>
    requires { handle.now.n ≡ x.now.n }
    ensures comb { IfOk result (λ c. MatchOption c
        ((cut : AnyCut) → ¬ IsViolatedComb x.now handle.now.cities (cities_of_each teeth.items) cut)
        (IsViolatedComb x.now handle.now.cities (cities_of_each teeth.items))) }
    ensures worth { IfOk result (λ c. IfSome c (IsWorth x.now)) }
{
    let cut = match Cut::comb(alloc, handle.copy(alloc)?, teeth) {
        Ok(cut) => cut,
        Err(CutError::NoMemory) => return Err(AllocError),
        Err(_) => return Ok(None),
    };
    if !is_violated(alloc, x, &cut)? {
        return Ok(None);
    }
    Ok(Some(cut))
}

/// Whether the values violate a cut by 2^10 units or more.
fn is_violated(alloc: Global, x: &Frac, cut: &Cut) -> Result<bool, AllocError>
    requires { IsCut x.now.n cut.now }
    ensures { IfOk result (λ b. IsTrue b ↔ (pos (2 ^ 10) ≤ℤ violation (value_of x.now.entries) x.now.n cut.now)) }
{
    let right = u64::from(cut.rhs()) * SCALE;
    let marks = marks_of(alloc, x.n(), cut)?;
    Ok(right >= weight(x, cut, &marks) + WORTH)
}

/// Which of n cities are in a set of the cut.
fn marks_of(alloc: Global, n: u32, cut: &Cut) -> Result<Vec<bool>, AllocError>
    ensures { IfOk result (λ marks. AreMarksOf n cut.now marks.items) }
{
    let mut marks = marks_of_sets(alloc, n, cut.sets())?;
    mark_pairs(&mut marks, cut.pairs());
    Ok(marks)
}

/// Which of n cities are in a set.
fn marks_of_sets(alloc: Global, n: u32, sets: &[CitySet]) -> Result<Vec<bool>, AllocError>
    ensures { IfOk result (λ marks. (length marks.items ≡ n)
        × ((c : ℕ) → c < n → slice_index_or marks.items c false ≡ is_in_any (cities_of_each sets.now) c)) }
{
    let mut marks = vec![in alloc; false; n as usize]?;
    for set in sets {
        mark(&mut marks, set.cities());
    }
    Ok(marks)
}

/// Marks the ends of pairs, but those past the marks.
fn mark_pairs(marks: &mut [bool], pairs: &[(u32, u32)])
    ensures long { length marks.new ≡ length marks.old }
    ensures marked { (c : ℕ) → c < length marks.old
        → slice_index_or marks.new c false ≡ (slice_index_or marks.old c false || is_in_any (map pair_set pairs.now) c) }
{
    let mut rest = pairs;
    while let Some((pair, more)) = rest.split_first() {
        mark(marks, &[pair.0, pair.1]);
        rest = more;
    }
}

/// What the values add up to over the pairs, each as often as it crosses a set of the cut, in units.
fn weight(x: &Frac, cut: &Cut, marks: &[bool]) -> u64
    requires cut { IsCut x.now.n cut.now }
    requires marks { AreMarksOf x.now.n cut.now marks.now }
    ensures missed { violation (value_of x.now.entries) x.now.n cut.now ≡ pos (scale * right_side cut.now) -ℤ pos result }
    ensures small { result < 2 ^ 63 }
{
    let _n = x.n();
    let mut weight = 0;
    for entry in x.entries() {
        weight += u64::from(entry.x) * u64::from(crossed(x, cut, marks, *entry));
    }
    weight
}

/// How many sets of the cut a pair crosses: none, where neither of its cities has a mark.
fn crossed(_x: &Frac, cut: &Cut, marks: &[bool], entry: Entry) -> u32
    requires marks { AreMarksOf _x.now.n cut.now marks.now }
    requires entry { IsEntry _x.now.n entry }
    ensures value { result ≡ coefficient (sets_of cut.now) entry.u entry.v }
    ensures few { result ≤ 3999 }
{
    if !is_marked(marks, entry.u) && !is_marked(marks, entry.v) {
        return 0;
    }
    cut.coef(entry.u, entry.v)
}
