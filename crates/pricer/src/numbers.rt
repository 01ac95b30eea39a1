//! Sums of numbers that are far from the limits of their type.

ghost use Rattle.std.specs.Prelude.{◌≡◌, ℕ, ◌+◌, ◌*◌, ◌^◌, ◌<◌, ◌≤◌, MatchOption, pos, neg_ℤ, ◌+ℤ◌, ◌-ℤ◌, ◌≤ℤ◌};
ghost use Rattle.std.specs.Int.{int_min};
ghost use Rattle.tspdef.specs.Bounds.{scale};
ghost use Rattle.pricer.specs.Sizes.{IsWithin};
ghost use Rattle.pricer.specs.Prices.{cost_of};

/// How many units one length is.
pub const SCALE: i128 = 1 << 20;

/// The same as a smaller type.
const SMALL_SCALE: i64 = 1 << 20;

/// The size of a number, in units, up to which 2,000 pairs lose less than 2^63.
const SMALL: i128 = 1 << 50;

/// A sum without a sign as a number with one.
pub fn signed(x: u128) -> i128
    requires { x ≤ 2 ^ 126 }
    ensures { result ≡ pos x }
{
    x as i128
}

/// A small number without a sign as a number with one.
pub fn small_signed(x: u64) -> i64
    requires { x ≤ 2 ^ 62 }
    ensures { result ≡ pos x }
{
    x as i64
}

/// A pair's distance, in units, less the numbers at its cities.
#[inline]
pub fn less(d: u32, a: i128, b: i128) -> i128
    requires a { IsWithin (2 ^ 100) a }
    requires b { IsWithin (2 ^ 100) b }
    ensures value { result ≡ pos (scale * d) -ℤ a -ℤ b }
    ensures size { IsWithin (2 ^ 102) result }
{
    SCALE * i128::from(d) - a - b
}

/// A pair's distance, in units, less the numbers at its cities, and twice a number of its own.
#[inline]
pub fn cost(d: u32, a: i128, b: i128, own: i128) -> i128
    requires a { IsWithin (2 ^ 100) a }
    requires b { IsWithin (2 ^ 100) b }
    requires own { IsWithin (2 ^ 100) own }
    ensures value { result ≡ cost_of d a b own }
    ensures size { IsWithin (2 ^ 103) result }
{
    less(d, a, b) + own + own
}

/// How far a number is below 0.
#[inline]
pub fn below_zero(x: i128) -> u128
    requires { IsWithin (2 ^ 103) x }
    ensures value { neg_ℤ (pos result) ≡ int_min (pos 0) x }
    ensures size { result ≤ 2 ^ 103 }
{
    if x < 0 { x.unsigned_abs() } else { 0 }
}

/// The same of small numbers.
#[inline]
pub fn small_less(d: u32, a: i64, b: i64) -> i64
    requires d { d < 2 ^ 30 }
    requires a { IsWithin (2 ^ 50) a }
    requires b { IsWithin (2 ^ 50) b }
    ensures value { result ≡ pos (scale * d) -ℤ a -ℤ b }
    ensures low { neg_ℤ (pos (2 ^ 51)) ≤ℤ result }
    ensures high { result ≤ℤ pos (2 ^ 52) }
{
    SMALL_SCALE * i64::from(d) - a - b
}

/// The same of small numbers.
#[inline]
pub fn small_cost(d: u32, a: i64, b: i64, own: i64) -> i64
    requires d { d < 2 ^ 30 }
    requires a { IsWithin (2 ^ 50) a }
    requires b { IsWithin (2 ^ 50) b }
    requires own { IsWithin (2 ^ 50) own }
    ensures value { result ≡ cost_of d a b own }
    ensures low { neg_ℤ (pos (2 ^ 52)) ≤ℤ result }
{
    let alone = small_less(d, a, b);
    alone + own + own
}

/// How far a small number is below 0.
#[inline]
pub fn small_below_zero(x: i64) -> u64
    requires { neg_ℤ (pos (2 ^ 52)) ≤ℤ x }
    ensures value { neg_ℤ (pos result) ≡ int_min (pos 0) x }
    ensures size { result ≤ 2 ^ 52 }
{
    if x < 0 { x.unsigned_abs() } else { 0 }
}

/// The number itself, if it is small.
pub fn small_of(x: i128) -> Option<i64>
    requires { IsWithin (2 ^ 100) x }
    ensures { MatchOption result (¬ IsWithin (2 ^ 50) x) (λ y. (y ≡ x) × IsWithin (2 ^ 50) y) }
{
    if x < -SMALL || x > SMALL {
        None
    } else {
        Some(x as i64)
    }
}

/// A cost less what the duals of sets take off it.
pub fn less_sets(cost: i128, cuts: i128, cliques: i128) -> i128
    requires cost { IsWithin (2 ^ 102) cost }
    requires cuts { IsWithin (2 ^ 88) cuts }
    requires cliques { IsWithin (2 ^ 80) cliques }
    ensures value { result ≡ cost -ℤ cuts -ℤ cliques }
    ensures size { IsWithin (2 ^ 103) result }
{
    cost - cuts - cliques
}

/// The sum of two numbers.
pub fn plus(a: i128, b: i128) -> i128
    requires a { IsWithin (2 ^ 120) a }
    requires b { IsWithin (2 ^ 120) b }
    ensures value { result ≡ a +ℤ b }
    ensures size { (m n : ℕ) → IsWithin m a → IsWithin n b → IsWithin (m + n) result }
{
    a + b
}
