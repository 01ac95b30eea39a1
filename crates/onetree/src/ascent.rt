//! Duals that give a good bound.
//!
//! Subgradient steps propose duals, which are kept where their value exceeds that of all duals 0. Where it does not by 2^10 units a
//! step, a rest follows: each round raises one dual by 2^10 or lowers one by that, where this raises the value by 2^10, until none
//! does. A round is over at once where the value is high enough, so that there are no more rounds than steps.
//!
//! The rest tries few changes. Where a lightest one-tree meets a city twice or more, its weight and twice the sum of the duals do not
//! rise as the city's dual does, so neither does the value; likewise down where it meets the city twice or less. And where a change by
//! 2^10 raises the value by less, so do greater changes in its direction, since the lightest one-tree of the changed duals meets the
//! city twice or more (or less) then. So only cities are tried that one lightest one-tree does not meet twice, in one direction, by
//! 2^10.

ghost use Rattle.std.specs.Prelude.{◌≡◌, true, false, ◌+◌, ◌*◌, ◌^◌, ◌<◌, ◌≤◌, ◌⊎◌, length, nat_abs, IfOk, OnOk, IfSome, IfNone, IsTrue, slice_set, ℤ, pos, neg_ℤ, ◌+ℤ◌, ◌≤ℤ◌, ◌<ℤ◌};
ghost use Rattle.onetree.specs.OneTrees.{AreDuals, IsHeldKarp, degree};
ghost use Rattle.tspdef.specs.Bounds.{scale};
ghost use Rattle.onetree.specs.Growing.{IsWithin};
ghost use Rattle.onetree.specs.Ascents.{zeros, least_gain, moved, HasValue, IsStill, AreAtRest, AreRaised, Reaches};

use crate::climb::subgradient_duals;
use crate::tree::least_tree;
use crate::value::held_karp;
use std::alloc::{AllocError, Global};
use tspinst::Instance;

/// By how much a gain raises a value at least, in units.
const LEAST_GAIN: i128 = 1 << 10;

/// By how much the rest changes a dual, in units.
const CHANGE: i64 = 1 << 10;

/// The greatest size of a dual.
const MOST: i64 = 1 << 62;

/// Duals and their Held-Karp value.
#[derive(Debug, Drop)]
struct Valued {
    duals: Vec<i64>,
    value: i128,
    ghost sized: { IsWithin (2 ^ 76) value },
}

/// Duals that so many steps raise from 0: all 0 where there are no steps. Else their Held-Karp value exceeds that of all duals 0 by 2^10
/// units a step at least, or it is no less and no change of one dual, up or down, by a power of two from 2^10 to 2^40, within the size of
/// duals, raises it by 2^10 or more. It exceeds -2^20, so that it proves a bound. Mostly they are far better: a thousand steps come within a percent of the greatest value
/// (Held and Karp 1971). It takes O(n^2) a step; where the value stays low, at most as many rounds follow as there are steps, of
/// O(n^2) for each city that a lightest one-tree does not meet twice.
///
/// # Errors
///
/// Where memory ran out.
pub fn ascend(alloc: Global, instance: &Instance, steps: u32) -> Result<Vec<i64>, AllocError>
    ensures raised { IfOk result (λ p. AreRaised instance.now steps p.items) }
    ensures some { IfOk result (λ p. (h : ℤ) → IsHeldKarp instance.now p.items h → neg_ℤ (pos scale) <ℤ h) }
{
    let start = with_value(alloc, instance, zero_duals(alloc, instance)?)?;
    if steps == 0 {
        return Ok(start.duals);
    }
    let base = start.value;
    let proposed = subgradient_duals(alloc, instance, steps)?;
    let climbed = with_value(alloc, instance, sized(alloc, instance, &proposed)?)?;
    let raised = rest(alloc, instance, steps, base, better(start, climbed))?;
    Ok(raised.duals)
}

/// All duals 0.
fn zero_duals(alloc: Global, instance: &Instance) -> Result<Vec<i64>, AllocError>
    ensures zeros { IfOk result (λ p. p.items ≡ zeros instance.now.n) }
    ensures duals { IfOk result (λ p. AreDuals instance.now.n p.items) }
{
    vec![in alloc; 0i64; instance.n() as usize]
}

/// Duals of proposals: what is missing is 0, and each has the size of a dual.
///
/// # Errors
///
/// Where memory ran out.
pub fn sized(alloc: Global, instance: &Instance, proposed: &[i64]) -> Result<Vec<i64>, AllocError>
    ensures { IfOk result (λ p. AreDuals instance.now.n p.items) }
{
    let mut duals = Vec::new(alloc);
    for city in 0..instance.n() as usize {
        duals.push(bounded(proposed.get(city)))?;
    }
    Ok(duals)
}

/// A proposal within the size of duals; 0 where there is none.
fn bounded(proposal: Option<&i64>) -> i64
    ensures { nat_abs result ≤ 2 ^ 62 }
{
    match proposal {
        Some(dual) => (*dual).clamp(-MOST, MOST),
        None => 0,
    }
}

/// Duals with their value.
fn with_value(alloc: Global, instance: &Instance, duals: Vec<i64>) -> Result<Valued, AllocError>
    requires { AreDuals instance.now.n duals.items }
    ensures same { IfOk result (λ v. v.duals.items ≡ duals.items) }
    ensures value { IfOk result (λ v. HasValue instance.now v.duals.items v.value) }
{
    let value = held_karp(alloc, instance, &duals)?;
    Ok(Valued { duals, value })
}

/// The duals of the greater value.
fn better(first: Valued, second: Valued) -> Valued
    ensures one { (result ≡ first) ⊎ (result ≡ second) }
    ensures first { first.value ≤ℤ result.value }
    ensures second { second.value ≤ℤ result.value }
{
    if first.value < second.value {
        second
    } else {
        first
    }
}

/// Raises one dual after the other until the value is high enough or the duals are at rest.
fn rest(
    alloc: Global,
    instance: &Instance,
    steps: u32,
    base: i128,
    best: Valued,
) -> Result<Valued, AllocError>
    requires value { HasValue instance.now best.duals.items best.value }
    requires low { base ≤ℤ best.value }
    requires size { IsWithin (2 ^ 76) base }
    ensures value { IfOk result (λ v. HasValue instance.now v.duals.items v.value) }
    ensures reached { IfOk result (λ v. Reaches instance.now steps v.duals.items base v.value) }
{
    let goal = base + i128::from(steps) * LEAST_GAIN;
    let mut best = best;
    for round in 0..steps {
        if goal <= best.value {
            return Ok(best);
        }
        if !best.raise(alloc, instance)? {
            return Ok(best);
        }
    }
    Ok(best)
}

impl Valued {
    /// Changes one dual so that the value rises by 2^10 at least, if there is such a change; else the duals are at rest.
    fn raise(&mut self, alloc: Global, instance: &Instance) -> Result<bool, AllocError>
        requires { HasValue instance.now self.old.duals.items self.old.value }
        ensures value { OnOk result (HasValue instance.now self.new.duals.items self.new.value) }
        ensures raised { IfOk result (λ b. IsTrue b → (self.old.value +ℤ pos least_gain) ≤ℤ self.new.value) }
        ensures same { IfOk result (λ b. ¬ IsTrue b → self.new.value ≡ self.old.value) }
        ensures rest { IfOk result (λ b. ¬ IsTrue b → AreAtRest instance.now self.new.duals.items self.new.value) }
    {
        let tree = least_tree(alloc, instance, &self.duals)?;
        for city in 0..instance.n() {
            let degree = degree_of(&tree.pairs, city);
            if self.turns(alloc, instance, city, degree)? {
                return Ok(true);
            }
        }
        Ok(false)
    }

    /// Tries the one direction in which the dual of a city may raise the value, where a lightest one-tree meets it so often.
    fn turns(
        &mut self,
        alloc: Global,
        instance: &Instance,
        city: u32,
        degree: u32,
    ) -> Result<bool, AllocError>
        requires value { HasValue instance.now self.old.duals.items self.old.value }
        requires city { city < instance.now.n }
        ensures value { OnOk result (HasValue instance.now self.new.duals.items self.new.value) }
        ensures raised { IfOk result (λ b. IsTrue b → (self.old.value +ℤ pos least_gain) ≤ℤ self.new.value) }
        ensures duals { IfOk result (λ b. ¬ IsTrue b → self.new.duals.items ≡ self.old.duals.items) }
        ensures same { IfOk result (λ b. ¬ IsTrue b → self.new.value ≡ self.old.value) }
        ensures leaf { IfOk result (λ b. ¬ IsTrue b → degree < 2 → IsStill instance.now self.old.duals.items self.old.value city true) }
        ensures hub { IfOk result (λ b. ¬ IsTrue b → 2 < degree → IsStill instance.now self.old.duals.items self.old.value city false) }
    {
        if degree < 2 {
            let raised = self.gains(alloc, instance, city, true)?;
            return Ok(raised);
        }
        if 2 < degree {
            let lowered = self.gains(alloc, instance, city, false)?;
            return Ok(lowered);
        }
        Ok(false)
    }

    /// Changes the dual of a city by 2^10 where this raises the value by as much; else all is as before.
    fn gains(
        &mut self,
        alloc: Global,
        instance: &Instance,
        city: u32,
        up: bool,
    ) -> Result<bool, AllocError>
        requires value { HasValue instance.now self.old.duals.items self.old.value }
        requires city { city < instance.now.n }
        ensures value { OnOk result (HasValue instance.now self.new.duals.items self.new.value) }
        ensures raised { IfOk result (λ b. IsTrue b → (self.old.value +ℤ pos least_gain) ≤ℤ self.new.value) }
        ensures duals { IfOk result (λ b. ¬ IsTrue b → self.new.duals.items ≡ self.old.duals.items) }
        ensures same { IfOk result (λ b. ¬ IsTrue b → self.new.value ≡ self.old.value) }
        ensures still { IfOk result (λ b. ¬ IsTrue b → IsStill instance.now self.old.duals.items self.old.value city up) }
    {
        let old = self.duals[city as usize];
        let Some(new) = move_dual(old, up) else {
            return Ok(false);
        };
        set_dual(&mut self.duals, city, new);
        let value = held_karp(alloc, instance, &self.duals)?;
        if self.value + LEAST_GAIN <= value {
            self.value = value;
            return Ok(true);
        }
        set_dual(&mut self.duals, city, old);
        Ok(false)
    }
}

/// Sets the dual of a city.
fn set_dual(duals: &mut Vec<i64>, city: u32, dual: i64)
    requires { city < length duals.old.items }
    ensures { duals.new.items ≡ slice_set duals.old.items city dual }
{
    duals[city as usize] = dual;
}

/// A dual that is changed by 2^10, where it keeps the size of duals.
fn move_dual(dual: i64, up: bool) -> Option<i64>
    requires { nat_abs dual ≤ 2 ^ 62 }
    ensures some { IfSome result (λ y. y ≡ dual +ℤ moved up least_gain) }
    ensures size { IfSome result (λ y. nat_abs y ≤ 2 ^ 62) }
    ensures none { IfNone result (2 ^ 62 < nat_abs (dual +ℤ moved up least_gain)) }
{
    let new = if up { dual + CHANGE } else { dual - CHANGE };
    if new < -MOST || MOST < new {
        None
    } else {
        Some(new)
    }
}

/// How many of the pairs meet a city.
fn degree_of(pairs: &[(u32, u32)], city: u32) -> u32
    requires { length pairs.now ≤ 2000 }
    ensures { result ≡ degree city pairs.now }
{
    let mut met = 0;
    for pair in pairs {
        if pair.0 == city || pair.1 == city {
            met += 1;
        }
    }
    met
}
