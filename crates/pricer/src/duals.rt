//! What duals add to the bound, and what they take off the cost of a pair, each dual in its turn.

ghost use Rattle.std.specs.Prelude.{◌≡◌, ℕ, ◌*◌, ◌^◌, ◌≤◌, [], ◌∷◌, length, pos, ◌+ℤ◌, Some};
ghost use Rattle.std.specs.List.{AllByRecursion};
ghost use Rattle.std.specs.Option.{option_map};
ghost use Rattle.tspdef.specs.Cuts.{IsCut, coefficient, sets_of, right_side};
ghost use Rattle.tspdef.specs.Closings.{IsDualSize};
ghost use Rattle.tspdef.specs.Sums.{sum_below};
ghost use Rattle.tspdef.specs.Bounds as defs;
ghost use Rattle.pricer.specs.Sizes.{IsWithin};
ghost use Rattle.pricer.specs.Trails.{condition_of};

use crate::closing::Closing;
use crate::trail::{Step, Trail, step_at};
use cutform::Cut;
use tspdef::cuts_are_small;

/// The dual of a city.
pub fn city_dual(closing: &Closing, city: u32) -> i128
    ensures value { result ≡ defs.city_dual closing.now city }
    ensures size { IsWithin (2 ^ 63) result }
{
    i128::from(closing.city().get(city as usize).copied().unwrap_or(0))
}

/// The sum of the city duals.
pub fn city_sum(n: u32, closing: &Closing) -> i128
    requires { n ≤ 2000 }
    ensures value { result ≡ sum_below (defs.city_dual closing.now) n }
    ensures size { IsWithin (2 ^ 63 * 2000) result }
{
    let mut total: i128 = 0;
    for city in 0..n {
        total += city_dual(closing, city);
    }
    total
}

/// What a cut with its dual adds to the bound.
fn cut_worth(n: u32, cut: &Cut, dual: u64) -> u128
    requires few { n ≤ 2000 }
    requires cut { IsCut n cut.now }
    requires dual { dual ≤ 2 ^ 62 }
    ensures value { result ≡ dual * right_side cut.now }
    ensures size { result ≤ 2 ^ 62 * 12286 }
{
    cuts_are_small();
    u128::from(dual) * u128::from(cut.rhs())
}

/// What the cuts with their duals add to the bound.
pub fn cuts_worth(n: u32, cuts: &[(Cut, u64)]) -> u128
    requires few { n ≤ 2000 }
    requires cuts { AllByRecursion (λ q. IsCut n q.0) cuts.now }
    requires sizes { AllByRecursion (λ q. IsDualSize q.1) cuts.now }
    requires some { length cuts.now ≤ 4096 }
    ensures value { pos result ≡ defs.worth (defs.cut_rows cuts.now) }
    ensures size { result ≤ 2 ^ 62 * 12286 * 4096 }
{
    let mut total: u128 = 0;
    let mut rest = cuts;
    while let Some((q, more)) = rest.split_first() {
        total += cut_worth(n, &q.0, q.1);
        rest = more;
    }
    total
}

/// What a cut with its dual takes off the cost of a pair.
fn cut_price(n: u32, cut: &Cut, dual: u64, u: u32, v: u32) -> u128
    requires cut { IsCut n cut.now }
    requires dual { dual ≤ 2 ^ 62 }
    ensures value { result ≡ dual * coefficient (sets_of cut.now) u v }
    ensures size { result ≤ 2 ^ 62 * 3999 }
{
    u128::from(dual) * u128::from(cut.coef(u, v))
}

/// What the cuts with their duals take off the cost of a pair.
pub fn cuts_price(n: u32, cuts: &[(Cut, u64)], u: u32, v: u32) -> u128
    requires cuts { AllByRecursion (λ q. IsCut n q.0) cuts.now }
    requires sizes { AllByRecursion (λ q. IsDualSize q.1) cuts.now }
    requires some { length cuts.now ≤ 4096 }
    ensures value { pos result ≡ defs.price (defs.cut_rows cuts.now) u v }
    ensures size { result ≤ 2 ^ 62 * 3999 * 4096 }
{
    let mut total: u128 = 0;
    let mut rest = cuts;
    while let Some((q, more)) = rest.split_first() {
        total += cut_price(n, &q.0, q.1, u, v);
        rest = more;
    }
    total
}

/// What a condition with its dual adds to the bound: twice the dual, negative, for a set that is crossed twice, four times
/// the dual for one that is crossed four times or more.
fn step_worth(step: Step<'_>, dual: u64) -> i128
    requires { dual ≤ 2 ^ 62 }
    ensures value { result ≡ defs.worth (defs.condition_row (Some (condition_of step.entry)) dual ∷ []) }
    ensures size { IsWithin (2 ^ 64) result }
{
    match step {
        Step::Fixed(_, _) | Step::Absent(_, _) | Step::Present(_, _) => 0,
        Step::Two(_) => -2 * i128::from(dual),
        Step::Four(_) => 4 * i128::from(dual),
    }
}

/// The same, of a condition if there is one.
fn worth_if(step: Option<Step<'_>>, dual: u64) -> i128
    requires { dual ≤ 2 ^ 62 }
    ensures value { result ≡ defs.worth (defs.condition_row (option_map condition_of step.entry) dual ∷ []) }
    ensures size { IsWithin (2 ^ 64) result }
{
    match step {
        None => 0,
        Some(step) => step_worth(step, dual),
    }
}

/// What the conditions with their duals add to the bound.
pub fn cliques_worth<'a, T: Trail<'a>>(trail: T, conds: &[(u32, u64)]) -> i128
    requires sizes { AllByRecursion (λ q. IsDualSize q.1) conds.now }
    requires few { length conds.now ≤ 4096 }
    ensures value { result ≡ defs.worth (defs.condition_rows (T.conditions trail) conds.now) }
    ensures size { IsWithin (2 ^ 64 * 4096) result }
{
    let mut total: i128 = 0;
    let mut near = trail;
    let mut rest = conds;
    while let Some((q, more)) = rest.split_last() {
        let (step, there) = step_at(trail, near, q.0);
        total += worth_if(step, q.1);
        near = there;
        rest = more;
    }
    total
}

/// What a condition with its dual takes off the cost of a pair that crosses its set: a set crossed twice gives it back.
fn step_price(step: Step<'_>, dual: u64, u: u32, v: u32) -> i128
    requires { dual ≤ 2 ^ 62 }
    ensures value { result ≡ defs.price (defs.condition_row (Some (condition_of step.entry)) dual ∷ []) u v }
    ensures size { IsWithin (2 ^ 62) result }
{
    match step {
        Step::Fixed(_, _) | Step::Absent(_, _) | Step::Present(_, _) => 0,
        Step::Two(set) => {
            if set.contains(u) != set.contains(v) {
                -i128::from(dual)
            } else {
                0
            }
        }
        Step::Four(set) => {
            if set.contains(u) != set.contains(v) {
                i128::from(dual)
            } else {
                0
            }
        }
    }
}

/// The same, of a condition if there is one.
fn price_if(step: Option<Step<'_>>, dual: u64, u: u32, v: u32) -> i128
    requires { dual ≤ 2 ^ 62 }
    ensures value { result ≡ defs.price (defs.condition_row (option_map condition_of step.entry) dual ∷ []) u v }
    ensures size { IsWithin (2 ^ 62) result }
{
    match step {
        None => 0,
        Some(step) => step_price(step, dual, u, v),
    }
}

/// What the conditions with their duals take off the cost of a pair.
pub fn cliques_price<'a, T: Trail<'a>>(trail: T, conds: &[(u32, u64)], u: u32, v: u32) -> i128
    requires sizes { AllByRecursion (λ q. IsDualSize q.1) conds.now }
    requires few { length conds.now ≤ 4096 }
    ensures value { result ≡ defs.price (defs.condition_rows (T.conditions trail) conds.now) u v }
    ensures size { IsWithin (2 ^ 62 * 4096) result }
{
    let mut total: i128 = 0;
    let mut near = trail;
    let mut rest = conds;
    while let Some((q, more)) = rest.split_last() {
        let (step, there) = step_at(trail, near, q.0);
        total += price_if(step, q.1, u, v);
        near = there;
        rest = more;
    }
    total
}
