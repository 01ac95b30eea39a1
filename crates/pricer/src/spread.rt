//! Duals of sets, laid on the cities of the sets.

ghost use Rattle.std.specs.Prelude.{◌≡◌, ℕ, ◌*◌, ◌^◌, ◌<◌, ◌≤◌, ◌+◌, length, map, pos, neg_ℤ, ◌+ℤ◌, ◌∷◌, []};
ghost use Rattle.std.specs.List.{AllByRecursion};
ghost use Rattle.std.specs.Option.{option_map};
ghost use Rattle.tspdef.specs.Sets.{IsSet};
ghost use Rattle.tspdef.specs.Cuts.{IsCut, pair_set};
ghost use Rattle.tspdef.specs.Closings.{IsDualSize};
ghost use Rattle.tspdef.specs.Bounds.{cut_rows, condition_row, condition_rows};
ghost use Rattle.cutform.specs.Cut.{cities_of_each};
ghost use Rattle.pricer.specs.Sizes.{IsWithin};
ghost use Rattle.pricer.specs.Prices.{at, is_counted, laid_one, laid, held};
ghost use Rattle.pricer.specs.Trails.{condition_of, HasProperSet};

use crate::rows::add_at;
use crate::trail::{Step, Trail, step_at};
use cutform::Cut;
use cyc::CitySet;

/// Whether a set counts: always, or where it holds a city.
#[inline]
pub fn is_counted(holder: Option<u32>, set: &CitySet) -> bool
    ensures { result ≡ is_counted holder set.now.cities }
{
    match holder {
        None => true,
        Some(city) => set.contains(city),
    }
}

/// Adds a dual at each city of a set that counts.
fn raise(numbers: &mut [i128], holder: Option<u32>, set: &CitySet, dual: u64)
    requires set { IsSet (length numbers.old) set.now.cities }
    requires numbers { (c : ℕ) → IsWithin (2 ^ 99) (at numbers.old c) }
    requires dual { dual ≤ 2 ^ 62 }
    ensures { (c : ℕ) → at numbers.new c ≡ at numbers.old c +ℤ laid_one (pos dual) holder set.now.cities c }
{
    if is_counted(holder, set) {
        add_at(numbers, set.cities(), i128::from(dual));
    }
}

/// Takes a dual off at each city of a set that counts.
fn lower(numbers: &mut [i128], holder: Option<u32>, set: &CitySet, dual: u64)
    requires set { IsSet (length numbers.old) set.now.cities }
    requires numbers { (c : ℕ) → IsWithin (2 ^ 99) (at numbers.old c) }
    requires dual { dual ≤ 2 ^ 62 }
    ensures { (c : ℕ) → at numbers.new c ≡ at numbers.old c +ℤ laid_one (neg_ℤ (pos dual)) holder set.now.cities c }
{
    if is_counted(holder, set) {
        add_at(numbers, set.cities(), -i128::from(dual));
    }
}

/// Adds a dual at each city of each of the sets that count.
fn raise_each(numbers: &mut [i128], holder: Option<u32>, sets: &[CitySet], dual: u64)
    requires sets { AllByRecursion (IsSet (length numbers.old)) (cities_of_each sets.now) }
    requires few { length sets.now ≤ 4096 }
    requires numbers { (c : ℕ) → IsWithin (2 ^ 98) (at numbers.old c) }
    requires dual { dual ≤ 2 ^ 62 }
    ensures { (c : ℕ) → at numbers.new c ≡ at numbers.old c +ℤ laid (pos dual) holder (cities_of_each sets.now) c }
{
    let mut rest = sets;
    while let Some((set, more)) = rest.split_first() {
        raise(numbers, holder, set, dual);
        rest = more;
    }
}

/// Whether a pair counts: always, or where a city is one of its two.
#[inline]
pub fn is_pair_counted(holder: Option<u32>, pair: (u32, u32)) -> bool
    ensures { result ≡ is_counted holder (pair_set pair) }
{
    match holder {
        None => true,
        Some(city) => pair.0 == city || pair.1 == city,
    }
}

/// Adds a dual at the two cities of a pair that counts.
fn raise_pair(numbers: &mut [i128], holder: Option<u32>, pair: (u32, u32), dual: u64)
    requires set { IsSet (length numbers.old) (pair_set pair) }
    requires numbers { (c : ℕ) → IsWithin (2 ^ 99) (at numbers.old c) }
    requires dual { dual ≤ 2 ^ 62 }
    ensures { (c : ℕ) → at numbers.new c ≡ at numbers.old c +ℤ laid_one (pos dual) holder (pair_set pair) c }
{
    if is_pair_counted(holder, pair) {
        add_at(numbers, &[pair.0, pair.1], i128::from(dual));
    }
}

/// Adds a dual at the two cities of each of the pairs that count.
fn raise_pairs(numbers: &mut [i128], holder: Option<u32>, pairs: &[(u32, u32)], dual: u64)
    requires sets { AllByRecursion (IsSet (length numbers.old)) (map pair_set pairs.now) }
    requires few { length pairs.now ≤ 4096 }
    requires numbers { (c : ℕ) → IsWithin (2 ^ 98) (at numbers.old c) }
    requires dual { dual ≤ 2 ^ 62 }
    ensures { (c : ℕ) → at numbers.new c ≡ at numbers.old c +ℤ laid (pos dual) holder (map pair_set pairs.now) c }
{
    let mut rest = pairs;
    while let Some((pair, more)) = rest.split_first() {
        raise_pair(numbers, holder, *pair, dual);
        rest = more;
    }
}

/// Adds the dual of a cut at each city of each of its sets that count, pairs among them.
fn spread_cut(n: u32, numbers: &mut [i128], holder: Option<u32>, cut: &Cut, dual: u64)
    requires few { n ≤ 2000 }
    requires long { n ≤ length numbers.old }
    requires cut { IsCut n cut.now }
    requires dual { dual ≤ 2 ^ 62 }
    requires numbers { (c : ℕ) → IsWithin (2 ^ 97 + 2 ^ 90) (at numbers.old c) }
    ensures { (c : ℕ) → at numbers.new c ≡ at numbers.old c +ℤ held holder (cut_rows ((cut.now, dual) ∷ [])) c }
{
    raise_each(numbers, holder, cut.sets(), dual);
    raise_pairs(numbers, holder, cut.pairs(), dual);
}

/// Adds the dual of each cut at each city of each of its sets that count.
pub fn spread_cuts(n: u32, numbers: &mut [i128], holder: Option<u32>, cuts: &[(Cut, u64)])
    requires few { n ≤ 2000 }
    requires long { n ≤ length numbers.old }
    requires cuts { AllByRecursion (λ q. IsCut n q.0) cuts.now }
    requires sizes { AllByRecursion (λ q. IsDualSize q.1) cuts.now }
    requires some { length cuts.now ≤ 4096 }
    requires numbers { (c : ℕ) → IsWithin (2 ^ 97) (at numbers.old c) }
    ensures { (c : ℕ) → at numbers.new c ≡ at numbers.old c +ℤ held holder (cut_rows cuts.now) c }
{
    let mut rest = cuts;
    while let Some((q, more)) = rest.split_first() {
        spread_cut(n, numbers, holder, &q.0, q.1);
        rest = more;
    }
}

/// Adds the dual of a condition on a set at each city of the set, if it counts: negative where the set is crossed twice.
fn spread_step(numbers: &mut [i128], holder: Option<u32>, step: Step<'_>, dual: u64)
    requires set { HasProperSet (length numbers.old) (Some (condition_of step)) }
    requires dual { dual ≤ 2 ^ 62 }
    requires numbers { (c : ℕ) → IsWithin (2 ^ 99) (at numbers.old c) }
    ensures { (c : ℕ) → at numbers.new c ≡ at numbers.old c +ℤ held holder (condition_row (Some (condition_of step.entry)) dual ∷ []) c }
{
    match step {
        Step::Fixed(_, _) | Step::Absent(_, _) | Step::Present(_, _) => {}
        Step::Two(set) => lower(numbers, holder, set, dual),
        Step::Four(set) => raise(numbers, holder, set, dual),
    }
}

/// The same, of a condition if there is one.
fn spread_if(numbers: &mut [i128], holder: Option<u32>, step: Option<Step<'_>>, dual: u64)
    requires set { HasProperSet (length numbers.old) (option_map condition_of step) }
    requires dual { dual ≤ 2 ^ 62 }
    requires numbers { (c : ℕ) → IsWithin (2 ^ 99) (at numbers.old c) }
    ensures { (c : ℕ) → at numbers.new c ≡ at numbers.old c +ℤ held holder (condition_row (option_map condition_of step.entry) dual ∷ []) c }
{
    match step {
        None => {}
        Some(step) => spread_step(numbers, holder, step, dual),
    }
}

/// Adds the dual of each of the conditions on sets at each city of the set, if it counts. They are gone through from the
/// last one up, as the trail is.
pub fn spread_cliques<'a, T: Trail<'a>>(
    n: u32,
    numbers: &mut [i128],
    holder: Option<u32>,
    trail: T,
    conds: &[(u32, u64)],
)
    requires cities { T.cities trail ≡ n }
    requires long { n ≤ length numbers.old }
    requires sizes { AllByRecursion (λ q. IsDualSize q.1) conds.now }
    requires few { length conds.now ≤ 4096 }
    requires numbers { (c : ℕ) → IsWithin (2 ^ 97) (at numbers.old c) }
    ensures { (c : ℕ) → at numbers.new c ≡ at numbers.old c +ℤ held holder (condition_rows (T.conditions trail) conds.now) c }
{
    let mut near = trail;
    let mut rest = conds;
    while let Some((q, more)) = rest.split_last() {
        let (step, there) = step_at(trail, near, q.0);
        spread_if(numbers, holder, step, q.1);
        near = there;
        rest = more;
    }
}
