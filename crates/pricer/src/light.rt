//! Light duals of cuts, laid on the cities of the sets that hold a city, as small numbers.

ghost use Rattle.std.specs.Prelude.{◌≡◌, ℕ, ◌*◌, ◌^◌, ◌≤◌, ◌+◌, length, map, cond, pos, ◌+ℤ◌, ◌∷◌, []};
ghost use Rattle.std.specs.List.{AllByRecursion};
ghost use Rattle.tspdef.specs.Sets.{has, RisesFrom, IsSet};
ghost use Rattle.tspdef.specs.Cuts.{IsCut, pair_set, sets_of};
ghost use Rattle.tspdef.specs.Bounds.{cut_rows};
ghost use Rattle.cutform.specs.Cut.{cities_of_each};
ghost use Rattle.pricer.specs.Sizes.{IsWithin};
ghost use Rattle.pricer.specs.Prices.{at, laid_one, laid, held};
ghost use Rattle.pricer.specs.Weights.{weight};

use crate::numbers::small_signed;
use crate::spread::{is_counted, is_pair_counted};
use cutform::Cut;
use cyc::CitySet;

/// Adds a small number at each of some cities.
fn add_small_at(numbers: &mut [i64], cities: &[u32], y: i64)
    requires rising { RisesFrom (length numbers.old) 0 cities.now }
    requires numbers { (c : ℕ) → IsWithin (2 ^ 50) (at numbers.old c) }
    requires y { IsWithin (2 ^ 50) y }
    ensures { (c : ℕ) → at numbers.new c ≡ at numbers.old c +ℤ cond (has cities.now c) y (pos 0) }
{
    for city in cities {
        numbers[*city as usize] += y;
    }
}

/// Adds a dual at each city of a set that counts.
fn raise(numbers: &mut [i64], holder: Option<u32>, set: &CitySet, dual: u64)
    requires set { IsSet (length numbers.old) set.now.cities }
    requires numbers { (c : ℕ) → IsWithin (2 ^ 50) (at numbers.old c) }
    requires dual { dual ≤ 2 ^ 46 }
    ensures { (c : ℕ) → at numbers.new c ≡ at numbers.old c +ℤ laid_one (pos dual) holder set.now.cities c }
{
    if is_counted(holder, set) {
        add_small_at(numbers, set.cities(), small_signed(dual));
    }
}

/// Adds a dual at each city of each of the sets that count.
fn raise_each(numbers: &mut [i64], holder: Option<u32>, sets: &[CitySet], dual: u64)
    requires sets { AllByRecursion (IsSet (length numbers.old)) (cities_of_each sets.now) }
    requires numbers { (c : ℕ) → IsWithin (2 ^ 49) (at numbers.old c) }
    requires dual { dual ≤ 2 ^ 46 }
    requires light { dual * length sets.now ≤ 2 ^ 46 }
    ensures { (c : ℕ) → at numbers.new c ≡ at numbers.old c +ℤ laid (pos dual) holder (cities_of_each sets.now) c }
{
    let mut rest = sets;
    while let Some((set, more)) = rest.split_first() {
        raise(numbers, holder, set, dual);
        rest = more;
    }
}

/// Adds a dual at the two cities of a pair that counts.
fn raise_pair(numbers: &mut [i64], holder: Option<u32>, pair: (u32, u32), dual: u64)
    requires set { IsSet (length numbers.old) (pair_set pair) }
    requires numbers { (c : ℕ) → IsWithin (2 ^ 50) (at numbers.old c) }
    requires dual { dual ≤ 2 ^ 46 }
    ensures { (c : ℕ) → at numbers.new c ≡ at numbers.old c +ℤ laid_one (pos dual) holder (pair_set pair) c }
{
    if is_pair_counted(holder, pair) {
        add_small_at(numbers, &[pair.0, pair.1], small_signed(dual));
    }
}

/// Adds a dual at the two cities of each of the pairs that count.
fn raise_pairs(numbers: &mut [i64], holder: Option<u32>, pairs: &[(u32, u32)], dual: u64)
    requires sets { AllByRecursion (IsSet (length numbers.old)) (map pair_set pairs.now) }
    requires numbers { (c : ℕ) → IsWithin (2 ^ 49) (at numbers.old c) }
    requires dual { dual ≤ 2 ^ 46 }
    requires light { dual * length pairs.now ≤ 2 ^ 46 }
    ensures { (c : ℕ) → at numbers.new c ≡ at numbers.old c +ℤ laid (pos dual) holder (map pair_set pairs.now) c }
{
    let mut rest = pairs;
    while let Some((pair, more)) = rest.split_first() {
        raise_pair(numbers, holder, *pair, dual);
        rest = more;
    }
}

/// Adds the dual of a cut at each city of each of its sets that count, pairs among them.
fn lay_cut(n: u32, numbers: &mut [i64], holder: Option<u32>, cut: &Cut, dual: u64)
    requires long { n ≤ length numbers.old }
    requires cut { IsCut n cut.now }
    requires light { dual * (1 + length (sets_of cut.now)) ≤ 2 ^ 46 }
    requires numbers { (c : ℕ) → IsWithin (2 ^ 48) (at numbers.old c) }
    ensures { (c : ℕ) → at numbers.new c ≡ at numbers.old c +ℤ held holder (cut_rows ((cut.now, dual) ∷ [])) c }
{
    raise_each(numbers, holder, cut.sets(), dual);
    raise_pairs(numbers, holder, cut.pairs(), dual);
}

/// Adds the dual of each cut at each city of each of its sets that count.
pub fn lay_cuts(n: u32, numbers: &mut [i64], holder: Option<u32>, cuts: &[(Cut, u64)])
    requires long { n ≤ length numbers.old }
    requires cuts { AllByRecursion (λ q. IsCut n q.0) cuts.now }
    requires light { weight cuts.now ≤ 2 ^ 46 }
    requires numbers { (c : ℕ) → IsWithin (2 ^ 47) (at numbers.old c) }
    ensures { (c : ℕ) → at numbers.new c ≡ at numbers.old c +ℤ held holder (cut_rows cuts.now) c }
{
    let mut rest = cuts;
    while let Some((q, more)) = rest.split_first() {
        lay_cut(n, numbers, holder, &q.0, q.1);
        rest = more;
    }
}
