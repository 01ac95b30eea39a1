//! Numbers at cities, and the sums of the pairs of a city.

ghost use Rattle.std.specs.Prelude.{◌≡◌, ℕ, ◌*◌, ◌^◌, ◌<◌, ◌≤◌, true, false, length, cond, IfSome, pos, neg_ℤ, ◌+ℤ◌};
ghost use Rattle.std.specs.Int.{int_min};
ghost use Rattle.tspdef.specs.Sets.{has, RisesFrom};
ghost use Rattle.tspdef.specs.Sums.{sum_below};
ghost use Rattle.tspdef.specs.Instances.{dist};
ghost use Rattle.pricer.specs.Sizes.{IsWithin};
ghost use Rattle.pricer.specs.Prices.{at, cost_of, AreSmall};

use crate::numbers::{below_zero, cost, less, small_below_zero, small_cost, small_less, small_of};
use tspinst::Instance;

/// Adds a number at each of some cities.
pub fn add_at(numbers: &mut [i128], cities: &[u32], y: i128)
    requires rising { RisesFrom (length numbers.old) 0 cities.now }
    requires numbers { (c : ℕ) → IsWithin (2 ^ 99) (at numbers.old c) }
    requires y { IsWithin (2 ^ 99) y }
    ensures { (c : ℕ) → at numbers.new c ≡ at numbers.old c +ℤ cond (has cities.now c) y (pos 0) }
{
    for city in cities {
        numbers[*city as usize] += y;
    }
}

/// How far a pair is below 0.
#[inline]
fn pair_loss(instance: &Instance, v: u32, base: i128, price: &[i128], own: &[i128], u: u32) -> u128
    requires from { v < instance.now.n }
    requires to { u < instance.now.n }
    requires price_len { instance.now.n ≤ length price.now }
    requires own_len { instance.now.n ≤ length own.now }
    requires base { IsWithin (2 ^ 100) base }
    requires price { IsWithin (2 ^ 100) (at price.now u) }
    requires own { IsWithin (2 ^ 100) (at own.now u) }
    ensures value { neg_ℤ (pos result) ≡ int_min (pos 0) (cost_of (dist instance.now v u) base (at price.now u) (at own.now u)) }
    ensures size { result ≤ 2 ^ 103 }
{
    let i = u as usize;
    below_zero(cost(instance.d(v, u), base, price[i], own[i]))
}

/// How far the pairs of a city with a lower one are below 0, summed up.
pub fn row_loss(instance: &Instance, v: u32, base: i128, price: &[i128], own: &[i128]) -> u128
    requires city { v < instance.now.n }
    requires few { instance.now.n ≤ 2000 }
    requires price_len { instance.now.n ≤ length price.now }
    requires own_len { instance.now.n ≤ length own.now }
    requires base { IsWithin (2 ^ 100) base }
    requires price { (c : ℕ) → IsWithin (2 ^ 100) (at price.now c) }
    requires own { (c : ℕ) → IsWithin (2 ^ 100) (at own.now c) }
    ensures value { neg_ℤ (pos result) ≡ sum_below (λ u. int_min (pos 0) (cost_of (dist instance.now v u) base (at price.now u) (at own.now u))) v }
    ensures size { result ≤ 2 ^ 103 * v }
{
    let mut total: u128 = 0;
    for u in 0..v {
        total += pair_loss(instance, v, base, price, own, u);
    }
    total
}

/// Writes numbers as small ones, if they all are.
pub fn narrow(numbers: &[i128], small: &mut [i64]) -> bool
    requires long { length small.old ≡ length numbers.now }
    requires numbers { (c : ℕ) → IsWithin (2 ^ 100) (at numbers.now c) }
    ensures small { result ≡ true → AreSmall numbers.now small.new }
    ensures large { result ≡ false → ¬ ((c : ℕ) → IsWithin (2 ^ 50) (at numbers.now c)) }
{
    for i in 0..numbers.len() {
        let Some(x) = small_of(numbers[i]) else {
            return false;
        };
        small[i] = x;
    }
    true
}

/// How far the pairs of a city that shares no number are below 0, by the same numbers as small ones if they are small.
pub fn bare_row_loss(instance: &Instance, v: u32, price: &[i128], small: Option<&[i64]>) -> u128
    requires city { v < instance.now.n }
    requires few { instance.now.n ≤ 2000 }
    requires price_len { instance.now.n ≤ length price.now }
    requires price { (c : ℕ) → IsWithin (2 ^ 100) (at price.now c) }
    requires small { IfSome small (λ s. AreSmall price.now s.now) }
    ensures value { neg_ℤ (pos result) ≡ sum_below (λ u. int_min (pos 0) (cost_of (dist instance.now v u) (at price.now v) (at price.now u) (pos 0))) v }
    ensures size { result ≤ 2 ^ 103 * v }
{
    match small {
        Some(small) => u128::from(small_row_loss(instance, v, small[v as usize], small)),
        None => wide_row_loss(instance, v, price[v as usize], price),
    }
}

/// The same for prices of any size.
fn wide_row_loss(instance: &Instance, v: u32, base: i128, price: &[i128]) -> u128
    requires city { v < instance.now.n }
    requires few { instance.now.n ≤ 2000 }
    requires price_len { instance.now.n ≤ length price.now }
    requires base { IsWithin (2 ^ 100) base }
    requires price { (c : ℕ) → IsWithin (2 ^ 100) (at price.now c) }
    ensures value { neg_ℤ (pos result) ≡ sum_below (λ u. int_min (pos 0) (cost_of (dist instance.now v u) base (at price.now u) (pos 0))) v }
    ensures size { result ≤ 2 ^ 103 * v }
{
    let mut total: u128 = 0;
    for u in 0..v {
        total += wide_pair_loss(instance, v, base, price, u);
    }
    total
}

/// How far a pair that shares no number is below 0.
#[inline]
fn wide_pair_loss(instance: &Instance, v: u32, base: i128, price: &[i128], u: u32) -> u128
    requires from { v < instance.now.n }
    requires to { u < instance.now.n }
    requires price_len { instance.now.n ≤ length price.now }
    requires base { IsWithin (2 ^ 100) base }
    requires price { IsWithin (2 ^ 100) (at price.now u) }
    ensures value { neg_ℤ (pos result) ≡ int_min (pos 0) (cost_of (dist instance.now v u) base (at price.now u) (pos 0)) }
    ensures size { result ≤ 2 ^ 103 }
{
    below_zero(less(instance.d(v, u), base, price[u as usize]))
}

/// The same as [`wide_row_loss`] for small prices: a pass that the compiler turns into vector instructions.
pub fn small_row_loss(instance: &Instance, v: u32, base: i64, price: &[i64]) -> u64
    requires city { v < instance.now.n }
    requires few { instance.now.n ≤ 2000 }
    requires price_len { instance.now.n ≤ length price.now }
    requires base { IsWithin (2 ^ 50) base }
    requires price { (c : ℕ) → IsWithin (2 ^ 50) (at price.now c) }
    ensures value { neg_ℤ (pos result) ≡ sum_below (λ u. int_min (pos 0) (cost_of (dist instance.now v u) base (at price.now u) (pos 0))) v }
    ensures size { result ≤ 2 ^ 52 * v }
{
    let mut total: u64 = 0;
    for u in 0..v {
        total += small_pair_loss(instance, v, base, price, u);
    }
    total
}

/// How far a pair with small prices is below 0.
#[inline]
fn small_pair_loss(instance: &Instance, v: u32, base: i64, price: &[i64], u: u32) -> u64
    requires from { v < instance.now.n }
    requires to { u < instance.now.n }
    requires price_len { instance.now.n ≤ length price.now }
    requires base { IsWithin (2 ^ 50) base }
    requires price { IsWithin (2 ^ 50) (at price.now u) }
    ensures value { neg_ℤ (pos result) ≡ int_min (pos 0) (cost_of (dist instance.now v u) base (at price.now u) (pos 0)) }
    ensures size { result ≤ 2 ^ 52 }
{
    small_below_zero(small_less(instance.d(v, u), base, price[u as usize]))
}

/// How far the pairs of a city are below 0 by small prices, where it shares small numbers: such a pass too.
pub fn light_row_loss(instance: &Instance, v: u32, base: i64, price: &[i64], own: &[i64]) -> u64
    requires city { v < instance.now.n }
    requires few { instance.now.n ≤ 2000 }
    requires price_len { instance.now.n ≤ length price.now }
    requires own_len { instance.now.n ≤ length own.now }
    requires base { IsWithin (2 ^ 50) base }
    requires price { (c : ℕ) → IsWithin (2 ^ 50) (at price.now c) }
    requires own { (c : ℕ) → IsWithin (2 ^ 50) (at own.now c) }
    ensures value { neg_ℤ (pos result) ≡ sum_below (λ u. int_min (pos 0) (cost_of (dist instance.now v u) base (at price.now u) (at own.now u))) v }
    ensures size { result ≤ 2 ^ 52 * v }
{
    let mut total: u64 = 0;
    for u in 0..v {
        total += light_pair_loss(instance, v, base, price, own, u);
    }
    total
}

/// How far a pair with small prices that shares a small number is below 0.
#[inline]
fn light_pair_loss(
    instance: &Instance,
    v: u32,
    base: i64,
    price: &[i64],
    own: &[i64],
    u: u32,
) -> u64
    requires from { v < instance.now.n }
    requires to { u < instance.now.n }
    requires price_len { instance.now.n ≤ length price.now }
    requires own_len { instance.now.n ≤ length own.now }
    requires base { IsWithin (2 ^ 50) base }
    requires price { IsWithin (2 ^ 50) (at price.now u) }
    requires own { IsWithin (2 ^ 50) (at own.now u) }
    ensures value { neg_ℤ (pos result) ≡ int_min (pos 0) (cost_of (dist instance.now v u) base (at price.now u) (at own.now u)) }
    ensures size { result ≤ 2 ^ 52 }
{
    let i = u as usize;
    small_below_zero(small_cost(instance.d(v, u), base, price[i], own[i]))
}
