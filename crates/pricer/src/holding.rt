//! Which cities the sets with a dual hold: one pass over the sets marks them.

ghost use Rattle.std.specs.Prelude.{◌≡◌, ℕ, ◌<◌, ◌≤◌, ◌||◌, [], ◌∷◌, length, map, All, pos, false, Some};
ghost use Rattle.std.specs.List.{AllByRecursion};
ghost use Rattle.std.specs.Option.{option_map};
ghost use Rattle.tspdef.specs.Sets.{has, IsSet};
ghost use Rattle.tspdef.specs.Cuts.{IsCut, pair_set};
ghost use Rattle.tspdef.specs.Closings.{IsClosing};
ghost use Rattle.tspdef.specs.Bounds.{cut_rows, condition_row, condition_rows};
ghost use Rattle.cutform.specs.Cut.{cities_of_each};
ghost use Rattle.pricer.specs.Marks.{is_marked, AreMarkedUnless};
ghost use Rattle.pricer.specs.Prices.{holders, held, shared_by};
ghost use Rattle.pricer.specs.Trails.{condition_of, HasProperSet};

use crate::closing::Closing;
use crate::trail::{Step, Trail, step_at};
use cutform::Cut;
use cyc::CitySet;

/// Marks the cities that a set with a dual holds. A city that is not marked shares no dual.
pub fn mark_held<'a, T: Trail<'a>>(n: u32, trail: T, closing: &Closing, marks: &mut [bool])
    requires cities { T.cities trail ≡ n }
    requires closing { IsClosing n (T.conditions trail) closing.now }
    requires long { n ≤ length marks.old }
    ensures { (v : ℕ) → is_marked marks.new v ≡ false → (c : ℕ) → shared_by (T.conditions trail) closing.now v c ≡ pos 0 }
{
    mark_cuts(n, marks, closing.cuts());
    mark_cliques(marks, trail, closing.conds());
}

fn mark(marks: &mut [bool], cities: &[u32])
    requires { All (λ c. c < length marks.old) cities.now }
    ensures { (c : ℕ) → is_marked marks.new c ≡ (is_marked marks.old c || has cities.now c) }
{
    for city in cities {
        marks[*city as usize] = true;
    }
}

fn mark_set(marks: &mut [bool], set: &CitySet)
    requires { IsSet (length marks.old) set.now.cities }
    ensures { (c : ℕ) → is_marked marks.new c ≡ (is_marked marks.old c || has set.now.cities c) }
{
    mark(marks, set.cities());
}

fn mark_sets(marks: &mut [bool], sets: &[CitySet])
    requires { AllByRecursion (IsSet (length marks.old)) (cities_of_each sets.now) }
    ensures { AreMarkedUnless marks.new marks.old (λ v. (c : ℕ) → holders (Some v) (cities_of_each sets.now) c ≡ 0) }
{
    let mut rest = sets;
    while let Some((set, more)) = rest.split_first() {
        mark_set(marks, set);
        rest = more;
    }
}

fn mark_pair(marks: &mut [bool], pair: (u32, u32))
    requires { IsSet (length marks.old) (pair_set pair) }
    ensures { (c : ℕ) → is_marked marks.new c ≡ (is_marked marks.old c || has (pair_set pair) c) }
{
    mark(marks, &[pair.0, pair.1]);
}

fn mark_pairs(marks: &mut [bool], pairs: &[(u32, u32)])
    requires { AllByRecursion (IsSet (length marks.old)) (map pair_set pairs.now) }
    ensures { AreMarkedUnless marks.new marks.old (λ v. (c : ℕ) → holders (Some v) (map pair_set pairs.now) c ≡ 0) }
{
    let mut rest = pairs;
    while let Some((pair, more)) = rest.split_first() {
        mark_pair(marks, *pair);
        rest = more;
    }
}

fn mark_cut(n: u32, marks: &mut [bool], cut: &Cut)
    requires long { n ≤ length marks.old }
    requires cut { IsCut n cut.now }
    ensures { AreMarkedUnless marks.new marks.old (λ v. (c y : ℕ) → held (Some v) (cut_rows ((cut.now, y) ∷ [])) c ≡ pos 0) }
{
    mark_sets(marks, cut.sets());
    mark_pairs(marks, cut.pairs());
}

/// Marks the cities that a set of the cuts holds.
pub fn mark_cuts(n: u32, marks: &mut [bool], cuts: &[(Cut, u64)])
    requires long { n ≤ length marks.old }
    requires cuts { AllByRecursion (λ q. IsCut n q.0) cuts.now }
    ensures { AreMarkedUnless marks.new marks.old (λ v. (c : ℕ) → held (Some v) (cut_rows cuts.now) c ≡ pos 0) }
{
    let mut rest = cuts;
    while let Some((q, more)) = rest.split_first() {
        mark_cut(n, marks, &q.0);
        rest = more;
    }
}

fn mark_step(marks: &mut [bool], step: Step<'_>)
    requires { HasProperSet (length marks.old) (Some (condition_of step)) }
    ensures { AreMarkedUnless marks.new marks.old (λ v. (c y : ℕ) → held (Some v) (condition_row (Some (condition_of step.entry)) y ∷ []) c ≡ pos 0) }
{
    match step {
        Step::Fixed(_, _) | Step::Absent(_, _) | Step::Present(_, _) => {}
        Step::Two(set) | Step::Four(set) => mark_set(marks, set),
    }
}

fn mark_if(marks: &mut [bool], step: Option<Step<'_>>)
    requires { HasProperSet (length marks.old) (option_map condition_of step) }
    ensures { AreMarkedUnless marks.new marks.old (λ v. (c y : ℕ) → held (Some v) (condition_row (option_map condition_of step.entry) y ∷ []) c ≡ pos 0) }
{
    match step {
        None => {}
        Some(step) => mark_step(marks, step),
    }
}

fn mark_cliques<'a, T: Trail<'a>>(marks: &mut [bool], trail: T, conds: &[(u32, u64)])
    requires { T.cities trail ≤ length marks.old }
    ensures { AreMarkedUnless marks.new marks.old (λ v. (c : ℕ) → held (Some v) (condition_rows (T.conditions trail) conds.now) c ≡ pos 0) }
{
    let mut near = trail;
    let mut rest = conds;
    while let Some((q, more)) = rest.split_last() {
        let (step, there) = step_at(trail, near, q.0);
        mark_if(marks, step);
        near = there;
        rest = more;
    }
}
