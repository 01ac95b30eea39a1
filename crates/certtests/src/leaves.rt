//! Closed leaves.
ghost use Rattle.std.specs.Prelude.{◌≡◌, length, map, IfOk, IfSome, OnOk};
ghost use Rattle.std.specs.Option.{option_map, is_some};
ghost use Rattle.std.specs.Int.Signed.{lt_z};
ghost use Rattle.std.specs.List.{AllByRecursion};
ghost use Rattle.tspdef.specs.Cuts.{IsCut};
ghost use Rattle.tspdef.specs.Paths.{branches, condition_at};
ghost use Rattle.tspdef.specs.Closings.{IsClosing};
ghost use Rattle.tspdef.specs.Bounds as bounds;
ghost use Rattle.branchx.specs.Cond.{condition_of, conditions_of, is_fixed as fixed_pair};
ghost use Rattle.certdef.specs.Accepted as defs;
ghost use Rattle.certdef.specs.Accepted.{is_clique};
ghost use Rattle.certdef.specs.Tests.{closes_leaf};
ghost use Rattle.verdict.specs.Bodies.{merged_closing, closes_merged};
ghost use Rattle.certtests.specs.Listed.{listed};
ghost use Rattle.certtests.specs.Merging.{enough};
ghost use Rattle.certtests.specs.Duals.{AreDuals};

use crate::duals::{city_duals, closing_of};
use crate::merging::merged_of;
use crate::moving::{put_back, rise, take_out};
use branchx::{Cond, Path};
use cutform::Cut;
use pricer::{Closing, bound, needed};
use std::alloc::{AllocError, Global};
use tspinst::Instance;

/// Whether a depth of a path, from 1 behind the fixed pairs, is that of a condition on a set. O(fixed pairs).
pub fn names_clique(path: &Path, depth: u32) -> bool
    ensures { result ≡ is_clique (condition_at path.now.conditions depth) }
{
    match depth.checked_sub(1) {
        None => false,
        Some(place) => is_on_set(behind_fixed(path).get(place as usize)),
    }
}

/// The conditions behind the fixed pairs, which have a depth.
fn behind_fixed(path: &Path) -> &[Cond]
    ensures { conditions_of result.now ≡ branches path.now.conditions }
{
    let conditions = path.conditions();
    for place in 0..conditions.len() {
        if !is_fixed(&conditions[place]) {
            return &conditions[place..];
        }
    }
    &[]
}

fn is_fixed(condition: &Cond) -> bool
    ensures { result ≡ fixed_pair (condition_of condition.now) }
{
    matches!(condition, Cond::Fixed(_, _))
}

fn is_on_set(condition: Option<&Cond>) -> bool
    ensures { result ≡ is_clique (option_map (λ c. condition_of c.now) condition.entry) }
{
    matches!(condition, Some(Cond::Two(_) | Cond::Four(_)))
}

/// Whether the duals of a leaf close it for the bound that a text tells: of cities from 1, of cuts by their numbers in the list, and of
/// conditions on sets by their depth on the leaf's path. One pass over all pairs, and O(n + sizes of the named cuts).
pub fn closes(
    alloc: Global,
    instance: &Instance,
    told: u64,
    cuts: &[Cut],
    path: &Path,
    cities: &[(u32, i64)],
    cut_duals: &[(u32, u64)],
    condition_duals: &[(u32, u64)],
) -> Result<bool, AllocError>
    requires cities_of { path.now.n ≡ instance.now.n }
    requires cuts { AllByRecursion (IsCut instance.now.n) cuts.now }
    requires duals { AreDuals (length cuts.now) path.now.conditions 0 0 (record { cities = cities.now; cuts = cut_duals.now; conds = condition_duals.now }) }
    ensures { IfOk result (λ b. b ≡ closes_leaf instance.now told (map listed cuts.now) path.now.conditions (record { cities = cities.now; cuts = cut_duals.now; conds = condition_duals.now })) }
{
    let closing = closing_of(
        alloc,
        instance.n(),
        cuts,
        cities,
        cut_duals,
        condition_duals,
    )?;
    Ok(exceeds(instance, told, path, &closing))
}

/// The same, where the cuts of the leaf are taken out of the list meanwhile and put back, so that none is copied if their numbers rise.
pub fn closes_in_place(
    alloc: Global,
    instance: &Instance,
    told: u64,
    cuts: &mut Vec<Cut>,
    path: &Path,
    cities: &[(u32, i64)],
    cut_duals: &[(u32, u64)],
    condition_duals: &[(u32, u64)],
) -> Result<bool, AllocError>
    requires cities_of { path.now.n ≡ instance.now.n }
    requires cuts { AllByRecursion (IsCut instance.now.n) cuts.old.items }
    requires duals { AreDuals (length cuts.old.items) path.now.conditions 0 0 (record { cities = cities.now; cuts = cut_duals.now; conds = condition_duals.now }) }
    ensures closes { IfOk result (λ b. b ≡ closes_leaf instance.now told (map listed cuts.old.items) path.now.conditions (record { cities = cities.now; cuts = cut_duals.now; conds = condition_duals.now })) }
    ensures same { OnOk result (cuts.new.items ≡ cuts.old.items) }
{
    if !rise(cut_duals) {
        return closes(
            alloc,
            instance,
            told,
            cuts,
            path,
            cities,
            cut_duals,
            condition_duals,
        );
    }
    let city = city_duals(alloc, instance.n(), cities)?;
    let conds = Vec::from_slice(alloc, condition_duals)?;
    let named = take_out(alloc, cuts, cut_duals)?;
    let closing = Closing::new(city, named, conds);
    let enough = exceeds(instance, told, path, &closing);
    let (_, named, _) = closing.into_parts();
    put_back(cuts, named, cut_duals)?;
    Ok(enough)
}

/// The closing that the duals of a leaf are, with equal cuts as one, if it closes the leaf for the bound that a text tells. Its cost is that of
/// `closes`, and for each of k named cuts a move of the k cuts at most.
pub fn closing_if_enough(
    alloc: Global,
    instance: &Instance,
    told: u64,
    cuts: &[Cut],
    path: &Path,
    cities: &[(u32, i64)],
    cut_duals: &[(u32, u64)],
    condition_duals: &[(u32, u64)],
) -> Result<Option<Closing>, AllocError>
    requires cities_of { path.now.n ≡ instance.now.n }
    requires cuts { AllByRecursion (IsCut instance.now.n) cuts.now }
    requires duals { AreDuals (length cuts.now) path.now.conditions 0 0 (record { cities = cities.now; cuts = cut_duals.now; conds = condition_duals.now }) }
    ensures found { IfOk result (λ o. is_some o ≡ closes_merged instance.now told (map listed cuts.now) path.now.conditions (record { cities = cities.now; cuts = cut_duals.now; conds = condition_duals.now })) }
    ensures value { IfOk result (λ o. IfSome o (λ c. c ≡ merged_closing (defs.closing_of instance.now.n (defs.cuts_of instance.now.n (map listed cuts.now)) (record { cities = cities.now; cuts = cut_duals.now; conds = condition_duals.now })))) }
{
    let merged = merged_of(
        alloc,
        instance.n(),
        cuts,
        cities,
        cut_duals,
        condition_duals,
    )?;
    Ok(if_enough(instance, told, path, merged))
}

/// The closing, if there is one and its bound exceeds what a bound for all tours needs.
fn if_enough(
    instance: &Instance,
    told: u64,
    path: &Path,
    merged: Option<Closing>,
) -> Option<Closing>
    requires cities { path.now.n ≡ instance.now.n }
    requires closing { IfSome merged (λ c. IsClosing instance.now.n path.now.conditions c) }
    ensures { result ≡ enough instance.now told path.now.conditions merged }
{
    match merged {
        Some(closing) if exceeds(instance, told, path, &closing) => Some(closing),
        _ => None,
    }
}

/// Whether a closing's bound exceeds what a bound for all tours needs.
fn exceeds(instance: &Instance, told: u64, path: &Path, closing: &Closing) -> bool
    requires cities { path.now.n ≡ instance.now.n }
    requires closing { IsClosing instance.now.n path.now.conditions closing.now }
    ensures { result ≡ lt_z (bounds.needed told) (bounds.bound instance.now path.now.conditions closing.now) }
{
    bound(instance, path, closing) > needed(told)
}
