//! Distances, by trying one number after the other.

ghost use Rattle.std.specs.Prelude.{◌≡◌, ◌≤◌, ◌^◌, ℤ, nat_abs, ◌-ℤ◌};
ghost use Rattle.tspdef.specs.Distances as defs;
ghost use Rattle.tspplain.specs.Values.{rule_of};

use crate::values::Rule;
use tspdef::roots_are_least;

/// Whether `k` is no less than the distance of points whose squared distance is `s`.
pub fn is_enough(rule: Rule, s: u64, k: u64) -> bool
    requires { k ≤ 2 ^ 52 }
    ensures { result ≡ defs.is_enough (rule_of rule) s k }
{
    let (s, k) = (u128::from(s), u128::from(k));
    match rule {
        Rule::Euclidean => s <= k * k + k,
        Rule::RoundedUp => s <= k * k,
        Rule::PseudoEuclidean => s <= 10 * (k * k),
        Rule::Manhattan => s <= k,
        Rule::Maximum => s <= k,
    }
}

/// The least number that is enough, by trying each.
pub fn root(rule: Rule, s: u64) -> u64
    requires { s ≤ 2 ^ 51 }
    ensures { result ≡ defs.root (rule_of rule) s }
{
    roots_are_least();
    let mut k = 0;
    while k < s && !is_enough(rule, s, k) {
        k += 1;
    }
    k
}

/// How far two coordinates are apart.
fn gap(a: i32, b: i32) -> u64
    requires { (nat_abs a ≤ 2 ^ 24) × (nat_abs b ≤ 2 ^ 24) }
    ensures value { result ≡ nat_abs (a -ℤ b) }
    ensures bound { result ≤ 2 ^ 25 }
{
    u64::from(a.abs_diff(b))
}

/// The squared distance of two points that are so far apart along each axis.
fn squared(across: u64, along: u64) -> u64
    requires { (across ≤ 2 ^ 25) × (along ≤ 2 ^ 25) }
    ensures value { result ≡ defs.squared across along }
    ensures bound { result ≤ 2 ^ 51 }
{
    across * across + along * along
}

/// The distance of two points, each an x and a y.
pub fn distance(rule: Rule, a: (i32, i32), b: (i32, i32)) -> u64
    requires from { (nat_abs a.0 ≤ 2 ^ 24) × (nat_abs a.1 ≤ 2 ^ 24) }
    requires to { (nat_abs b.0 ≤ 2 ^ 24) × (nat_abs b.1 ≤ 2 ^ 24) }
    ensures { result ≡ defs.distance (rule_of rule) a b }
{
    let across = gap(a.0, b.0);
    let along = gap(a.1, b.1);
    match rule {
        Rule::Euclidean => root(Rule::Euclidean, squared(across, along)),
        Rule::RoundedUp => root(Rule::RoundedUp, squared(across, along)),
        Rule::PseudoEuclidean => root(Rule::PseudoEuclidean, squared(across, along)),
        Rule::Manhattan => across + along,
        Rule::Maximum => across.max(along),
    }
}
