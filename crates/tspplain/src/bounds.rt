//! The bound of a closing, as a plain sum over all pairs, the path scanned for each.

ghost use Rattle.std.specs.Prelude.{◌≡◌, ◌+◌, ◌*◌, ◌^◌, ◌≤◌, length, pos, neg_ℤ, ◌+ℤ◌, ◌-ℤ◌, ◌≤ℤ◌, slice_get, slice_index_or, [], ◌∷◌};
ghost use Rattle.std.specs.List.{AllByRecursion};
ghost use Rattle.tspdef.specs.Cuts as cut_defs;
ghost use Rattle.tspdef.specs.Paths as path_defs;
ghost use Rattle.tspdef.specs.Closings as closing_defs;
ghost use Rattle.tspdef.specs.Sums as sums;
ghost use Rattle.tspdef.specs.Bounds as defs;
ghost use Rattle.tspplain.specs.Values.{instance_of, condition_of, path_of, cut_duals_of, clique_duals_of, closing_of};

use crate::cuts::{cut_coefficient, right_side};
use crate::paths::{branch_at, is_absent, is_present};
use crate::tours::{crosses, dist};
use crate::values::{CliqueDual, Closing, Condition, CutDual, Instance};

/// How many units one length is.
pub const SCALE: i128 = 1 << 20;

/// A dual as often as a small number says.
fn times(dual: u64, count: u128, most: u128) -> u128
    requires few { count ≤ most }
    requires small { (dual ≤ 2 ^ 62) × (most ≤ 2 ^ 40) }
    ensures value { result ≡ dual * count }
    ensures bound { result ≤ 2 ^ 62 * most }
{
    u128::from(dual) * count
}

/// What the duals of cuts take off the cost of a pair.
fn cuts_price(n: u32, cuts: &[CutDual], u: u32, v: u32) -> u128
    requires cuts { AllByRecursion (λ q. cut_defs.IsCut n q.0) (cut_duals_of n cuts.now) }
    requires sizes { AllByRecursion (λ q. closing_defs.IsDualSize q.1) (cut_duals_of n cuts.now) }
    requires few { length cuts.now ≤ 4096 }
    ensures value { pos result ≡ defs.price (defs.cut_rows (cut_duals_of n cuts.now)) u v }
    ensures bound { result ≤ 2 ^ 62 * 4096 * length cuts.now }
{
    match cuts.split_first() {
        None => 0,
        Some((q, rest)) => {
            times(q.dual, cut_coefficient(n, &q.cut, u, v), 4096) + cuts_price(n, rest, u, v)
        }
    }
}

/// What the duals of cuts add to the bound.
fn cuts_worth(n: u32, cuts: &[CutDual]) -> u128
    requires cuts { AllByRecursion (λ q. cut_defs.IsCut n q.0) (cut_duals_of n cuts.now) }
    requires sizes { AllByRecursion (λ q. closing_defs.IsDualSize q.1) (cut_duals_of n cuts.now) }
    requires few { length cuts.now ≤ 4096 }
    ensures value { pos result ≡ defs.worth (defs.cut_rows (cut_duals_of n cuts.now)) }
    ensures bound { result ≤ 2 ^ 62 * 2 ^ 35 * length cuts.now }
{
    match cuts.split_first() {
        None => 0,
        Some((q, rest)) => times(q.dual, right_side(n, &q.cut), 1 << 35) + cuts_worth(n, rest),
    }
}

/// What the dual of a condition takes off the cost of a pair: of a set crossed twice it counts negative.
fn condition_price(condition: &Condition, dual: u64, u: u32, v: u32) -> i128
    requires { dual ≤ 2 ^ 62 }
    ensures value { result ≡ defs.price (defs.condition_row (Some (condition_of condition.now)) dual ∷ []) u v }
    ensures low { neg_ℤ (pos (2 ^ 62)) ≤ℤ result }
    ensures high { result ≤ℤ pos (2 ^ 62) }
{
    match condition {
        Condition::Fixed(_, _) => 0,
        Condition::Absent(_, _) => 0,
        Condition::Present(_, _) => 0,
        Condition::Two(set) => {
            if crosses(set.as_slice(), u, v) {
                -i128::from(dual)
            } else {
                0
            }
        }
        Condition::Four(set) => {
            if crosses(set.as_slice(), u, v) {
                i128::from(dual)
            } else {
                0
            }
        }
    }
}

/// What the dual of a condition adds to the bound: twice as much for a set crossed twice, negative, and four times for the other.
fn condition_worth(condition: &Condition, dual: u64) -> i128
    requires { dual ≤ 2 ^ 62 }
    ensures value { result ≡ defs.worth (defs.condition_row (Some (condition_of condition.now)) dual ∷ []) }
    ensures low { neg_ℤ (pos (2 ^ 64)) ≤ℤ result }
    ensures high { result ≤ℤ pos (2 ^ 64) }
{
    match condition {
        Condition::Fixed(_, _) => 0,
        Condition::Absent(_, _) => 0,
        Condition::Present(_, _) => 0,
        Condition::Two(_) => -2 * i128::from(dual),
        Condition::Four(_) => 4 * i128::from(dual),
    }
}

/// The same for the condition at a place of the path behind the fixed pairs, from 0 on; 0 where there is none.
fn price_at(path: &[Condition], place: u32, dual: u64, u: u32, v: u32) -> i128
    requires { dual ≤ 2 ^ 62 }
    ensures value { result ≡ defs.price (defs.condition_row (slice_get (path_defs.branches (path_of path.now)) place) dual ∷ []) u v }
    ensures low { neg_ℤ (pos (2 ^ 62)) ≤ℤ result }
    ensures high { result ≤ℤ pos (2 ^ 62) }
{
    match branch_at(path, place) {
        None => 0,
        Some(condition) => condition_price(condition, dual, u, v),
    }
}

/// The same for what it adds to the bound.
fn worth_at(path: &[Condition], place: u32, dual: u64) -> i128
    requires { dual ≤ 2 ^ 62 }
    ensures value { result ≡ defs.worth (defs.condition_row (slice_get (path_defs.branches (path_of path.now)) place) dual ∷ []) }
    ensures low { neg_ℤ (pos (2 ^ 64)) ≤ℤ result }
    ensures high { result ≤ℤ pos (2 ^ 64) }
{
    match branch_at(path, place) {
        None => 0,
        Some(condition) => condition_worth(condition, dual),
    }
}

/// The same for the condition at a depth.
fn depth_price(path: &[Condition], q: CliqueDual, u: u32, v: u32) -> i128
    requires { q.dual ≤ 2 ^ 62 }
    ensures value { result ≡ defs.price (defs.condition_row (path_defs.condition_at (path_of path.now) q.depth) q.dual ∷ []) u v }
    ensures low { neg_ℤ (pos (2 ^ 62)) ≤ℤ result }
    ensures high { result ≤ℤ pos (2 ^ 62) }
{
    if q.depth == 0 {
        0
    } else {
        price_at(path, q.depth - 1, q.dual, u, v)
    }
}

fn depth_worth(path: &[Condition], q: CliqueDual) -> i128
    requires { q.dual ≤ 2 ^ 62 }
    ensures value { result ≡ defs.worth (defs.condition_row (path_defs.condition_at (path_of path.now) q.depth) q.dual ∷ []) }
    ensures low { neg_ℤ (pos (2 ^ 64)) ≤ℤ result }
    ensures high { result ≤ℤ pos (2 ^ 64) }
{
    if q.depth == 0 {
        0
    } else {
        worth_at(path, q.depth - 1, q.dual)
    }
}

/// What the clique duals take off the cost of a pair.
fn cliques_price(path: &[Condition], conds: &[CliqueDual], u: u32, v: u32) -> i128
    requires sizes { AllByRecursion (λ q. closing_defs.IsDualSize q.1) (clique_duals_of conds.now) }
    requires few { length conds.now ≤ 4096 }
    ensures value { result ≡ defs.price (defs.condition_rows (path_of path.now) (clique_duals_of conds.now)) u v }
    ensures low { neg_ℤ (pos (2 ^ 62 * length conds.now)) ≤ℤ result }
    ensures high { result ≤ℤ pos (2 ^ 62 * length conds.now) }
{
    match conds.split_first() {
        None => 0,
        Some((q, rest)) => depth_price(path, *q, u, v) + cliques_price(path, rest, u, v),
    }
}

/// What the clique duals add to the bound.
fn cliques_worth(path: &[Condition], conds: &[CliqueDual]) -> i128
    requires sizes { AllByRecursion (λ q. closing_defs.IsDualSize q.1) (clique_duals_of conds.now) }
    requires few { length conds.now ≤ 4096 }
    ensures value { result ≡ defs.worth (defs.condition_rows (path_of path.now) (clique_duals_of conds.now)) }
    ensures low { neg_ℤ (pos (2 ^ 64 * length conds.now)) ≤ℤ result }
    ensures high { result ≤ℤ pos (2 ^ 64 * length conds.now) }
{
    match conds.split_first() {
        None => 0,
        Some((q, rest)) => depth_worth(path, *q) + cliques_worth(path, rest),
    }
}

/// The dual of a city.
fn city_dual(closing: &Closing, city: u32) -> i64
    ensures { result ≡ slice_index_or closing.now.city.items city (pos 0) }
{
    closing.city.get(city as usize).copied().unwrap_or(0)
}

/// A sum without a sign as a number with one.
fn signed(x: u128) -> i128
    requires { x ≤ 2 ^ 110 }
    ensures value { result ≡ pos x }
    ensures low { pos 0 ≤ℤ result }
    ensures high { result ≤ℤ pos (2 ^ 110) }
{
    x as i128
}

/// A cost, in units, less the duals of its two cities.
fn less_cities(d: u32, a: i64, b: i64) -> i128
    ensures value { result ≡ pos (defs.scale * d) -ℤ a -ℤ b }
    ensures low { neg_ℤ (pos (2 ^ 65)) ≤ℤ result }
    ensures high { result ≤ℤ pos (2 ^ 65) }
{
    SCALE * i128::from(d) - i128::from(a) - i128::from(b)
}

/// A cost less what the duals of sets take off it.
fn less_sets(cost: i128, cuts: i128, cliques: i128) -> i128
    requires cost { (neg_ℤ (pos (2 ^ 65)) ≤ℤ cost) × (cost ≤ℤ pos (2 ^ 65)) }
    requires cuts { (neg_ℤ (pos (2 ^ 87)) ≤ℤ cuts) × (cuts ≤ℤ pos (2 ^ 87)) }
    requires cliques { (neg_ℤ (pos (2 ^ 80)) ≤ℤ cliques) × (cliques ≤ℤ pos (2 ^ 80)) }
    ensures value { result ≡ cost -ℤ cuts -ℤ cliques }
    ensures low { neg_ℤ (pos (2 ^ 88)) ≤ℤ result }
    ensures high { result ≤ℤ pos (2 ^ 88) }
{
    cost - cuts - cliques
}

/// The sum of three numbers that are far from the limits of their type.
fn sum_of_three(a: i128, b: i128, c: i128) -> i128
    requires a { (neg_ℤ (pos (2 ^ 112)) ≤ℤ a) × (a ≤ℤ pos (2 ^ 112)) }
    requires b { (neg_ℤ (pos (2 ^ 111)) ≤ℤ b) × (b ≤ℤ pos (2 ^ 111)) }
    requires c { (neg_ℤ (pos (2 ^ 111)) ≤ℤ c) × (c ≤ℤ pos (2 ^ 111)) }
    ensures value { result ≡ a +ℤ b +ℤ c }
    ensures low { neg_ℤ (pos (2 ^ 113)) ≤ℤ result }
    ensures high { result ≤ℤ pos (2 ^ 113) }
{
    a + b + c
}

/// The reduced cost of a pair, in units.
pub fn reduced_cost(
    instance: &Instance,
    path: &[Condition],
    closing: &Closing,
    u: u32,
    v: u32,
) -> i128
    requires { closing_defs.IsClosing instance.now.n (path_of path.now) (closing_of instance.now.n closing.now) }
    ensures value { result ≡ defs.reduced_cost (instance_of instance.now) (path_of path.now) (closing_of instance.now.n closing.now) u v }
    ensures low { neg_ℤ (pos (2 ^ 88)) ≤ℤ result }
    ensures high { result ≤ℤ pos (2 ^ 88) }
{
    let cost = less_cities(
        dist(instance, u, v),
        city_dual(closing, u),
        city_dual(closing, v),
    );
    let cuts = signed(cuts_price(instance.n, closing.cuts.as_slice(), u, v));
    let cliques = cliques_price(path, closing.conds.as_slice(), u, v);
    less_sets(cost, cuts, cliques)
}

/// What a pair adds to the bound.
fn pair_term(instance: &Instance, path: &[Condition], closing: &Closing, u: u32, v: u32) -> i128
    requires { closing_defs.IsClosing instance.now.n (path_of path.now) (closing_of instance.now.n closing.now) }
    ensures value { result ≡ defs.pair_term (path_of path.now) (defs.reduced_cost (instance_of instance.now) (path_of path.now) (closing_of instance.now.n closing.now)) u v }
    ensures low { neg_ℤ (pos (2 ^ 88)) ≤ℤ result }
    ensures high { result ≤ℤ pos (2 ^ 88) }
{
    let cost = reduced_cost(instance, path, closing, u, v);
    if is_present(path, u, v) {
        cost
    } else if is_absent(path, u, v) {
        0
    } else {
        cost.min(0)
    }
}

/// What the pairs of a city and a lower one add to the bound.
fn column(instance: &Instance, path: &[Condition], closing: &Closing, v: u32) -> i128
    requires closing { closing_defs.IsClosing instance.now.n (path_of path.now) (closing_of instance.now.n closing.now) }
    requires few { v ≤ 2000 }
    ensures value { result ≡ sums.sum_below (λ u. defs.pair_term (path_of path.now) (defs.reduced_cost (instance_of instance.now) (path_of path.now) (closing_of instance.now.n closing.now)) u v) v }
    ensures low { neg_ℤ (pos (2 ^ 88 * 2000)) ≤ℤ result }
    ensures high { result ≤ℤ pos (2 ^ 88 * 2000) }
{
    let mut total: i128 = 0;
    for u in 0..v {
        total += pair_term(instance, path, closing, u, v);
    }
    total
}

/// What all pairs add to the bound.
fn pairs(instance: &Instance, path: &[Condition], closing: &Closing) -> i128
    requires closing { closing_defs.IsClosing instance.now.n (path_of path.now) (closing_of instance.now.n closing.now) }
    requires few { instance.now.n ≤ 2000 }
    ensures value { result ≡ sums.sum_pairs (defs.pair_term (path_of path.now) (defs.reduced_cost (instance_of instance.now) (path_of path.now) (closing_of instance.now.n closing.now))) instance.now.n }
    ensures low { neg_ℤ (pos (2 ^ 88 * 2000 * 2000)) ≤ℤ result }
    ensures high { result ≤ℤ pos (2 ^ 88 * 2000 * 2000) }
{
    let mut total: i128 = 0;
    for v in 0..instance.n {
        total += column(instance, path, closing, v);
    }
    total
}

/// The sum of the city duals.
fn city_sum(n: u32, closing: &Closing) -> i128
    requires { n ≤ 2000 }
    ensures value { result ≡ sums.sum_below (defs.city_dual (closing_of n closing.now)) n }
    ensures low { neg_ℤ (pos (2 ^ 63 * 2000)) ≤ℤ result }
    ensures high { result ≤ℤ pos (2 ^ 63 * 2000) }
{
    let mut total: i128 = 0;
    for city in 0..n {
        total += i128::from(city_dual(closing, city));
    }
    total
}

/// What the duals of sets add to the bound.
fn sets_worth(n: u32, path: &[Condition], closing: &Closing) -> i128
    requires { closing_defs.IsClosing n (path_of path.now) (closing_of n closing.now) }
    ensures value { result ≡ defs.worth (defs.cut_rows (cut_duals_of n closing.now.cuts.items)) +ℤ defs.worth (defs.condition_rows (path_of path.now) (clique_duals_of closing.now.conds.items)) }
    ensures low { neg_ℤ (pos (2 ^ 111)) ≤ℤ result }
    ensures high { result ≤ℤ pos (2 ^ 111) }
{
    let cuts = signed(cuts_worth(n, closing.cuts.as_slice()));
    let cliques = cliques_worth(path, closing.conds.as_slice());
    cuts + cliques
}

/// The bound of a closing on a path, in units: no tour that obeys the path is shorter.
pub fn bound(instance: &Instance, path: &[Condition], closing: &Closing) -> i128
    requires closing { closing_defs.IsClosing instance.now.n (path_of path.now) (closing_of instance.now.n closing.now) }
    requires few { instance.now.n ≤ 2000 }
    ensures value { result ≡ defs.bound (instance_of instance.now) (path_of path.now) (closing_of instance.now.n closing.now) }
    ensures low { neg_ℤ (pos (2 ^ 114)) ≤ℤ result }
    ensures high { result ≤ℤ pos (2 ^ 114) }
{
    let city = city_sum(instance.n, closing);
    let sets = sets_worth(instance.n, path, closing);
    sum_of_three(city, city, sets) + pairs(instance, path, closing)
}
