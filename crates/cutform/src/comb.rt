//! The tests that a handle and teeth have to pass, each over all the teeth.
ghost use Rattle.std.specs.Prelude.{◌≡◌, ℕ, ◌<◌, ◌||◌, ◌↔◌, IsTrue, false, not, nat_lt, All, IfOk, OnOk, IfErr, length, slice_index_or};
ghost use Rattle.std.specs.List.{list_any, list_all, AllByRecursion};
ghost use Rattle.tspdef.specs.Sets.{has, IsSet, AreDisjoint};
ghost use Rattle.tspdef.specs.Cuts.{IsComb};
ghost use Rattle.cutform.specs.Cut.{cities_of_each};
ghost use Rattle.cutform.specs.Combs.{any_two_meet, AreProper, AreOddMany, IsDefect};

use crate::error::CutError;
use cyc::CitySet;
use std::alloc::{AllocError, Global};

// The first thing that is wrong with a comb.
#[tactic(auto, using(crate::proofs::CombLemmas::comb_from_parts))]
pub fn check(alloc: Global, handle: &CitySet, teeth: &[CitySet]) -> Result<(), CutError>
    ensures ok { OnOk result (IsComb handle.now.n handle.now.cities (cities_of_each teeth.now)) }
    ensures refused { IfErr result (IsDefect handle.now.n handle.now.cities (cities_of_each teeth.now)) }
{
    if !are_proper(handle, teeth) {
        return Err(CutError::NotProper);
    }
    if !are_odd_many(teeth) {
        return Err(CutError::EvenTeeth);
    }
    if !are_disjoint(alloc, handle.n(), teeth)? {
        return Err(CutError::TeethMeet);
    }
    if !each_leaves(teeth, handle) {
        return Err(CutError::ToothInside);
    }
    if !each_enters(teeth, handle) {
        return Err(CutError::ToothOutside);
    }
    Ok(())
}

fn are_proper(handle: &CitySet, teeth: &[CitySet]) -> bool
    ensures { IsTrue result ↔ AreProper handle.now.n handle.now.cities (cities_of_each teeth.now) }
{
    handle.is_proper() && are_sets(handle.n(), teeth)
}

// Whether the teeth are sets of n cities.
fn are_sets(n: u32, teeth: &[CitySet]) -> bool
    ensures { IsTrue result ↔ AllByRecursion (IsSet n) (cities_of_each teeth.now) }
{
    for tooth in teeth {
        if !are_below(n, tooth.cities()) {
            return false;
        }
    }
    true
}

fn are_below(n: u32, cities: &[u32]) -> bool
    ensures { result ≡ list_all (λ c. nat_lt c n) cities.now }
{
    cities.iter().all(|city| *city < n)
}

fn are_odd_many(teeth: &[CitySet]) -> bool
    ensures { IsTrue result ↔ AreOddMany (cities_of_each teeth.now) }
{
    teeth.len() >= 3 && teeth.len() % 2 == 1
}

// Whether no two of the teeth have a city in common: each marks its cities, after a look for marks on them.
fn are_disjoint(alloc: Global, n: u32, teeth: &[CitySet]) -> Result<bool, AllocError>
    requires { AllByRecursion (IsSet n) (cities_of_each teeth.now) }
    ensures { IfOk result (λ b. IsTrue b ↔ AreDisjoint (cities_of_each teeth.now)) }
{
    let mut marks = vec![in alloc; false; n as usize]?;
    Ok(!meets_marked(&mut marks, teeth))
}

// Marks the cities of one tooth after the other, up to one with a city that is marked; whether there is one.
fn meets_marked(marks: &mut [bool], teeth: &[CitySet]) -> bool
    requires clear { (c : ℕ) → slice_index_or marks.old c false ≡ false }
    requires sets { All (λ t. IsSet (length marks.old) t.cities) teeth.now }
    ensures { result ≡ any_two_meet (cities_of_each teeth.now) }
{
    for tooth in teeth {
        let cities = tooth.cities();
        if is_any_marked(marks, cities) {
            return true;
        }
        mark(marks, cities);
    }
    false
}

fn is_any_marked(marks: &[bool], cities: &[u32]) -> bool
    ensures { result ≡ list_any (λ c. slice_index_or marks.now c false) cities.now }
{
    cities
        .iter()
        .any(|city| marks.get(*city as usize).copied().unwrap_or(false))
}

fn mark(marks: &mut [bool], cities: &[u32])
    requires { All (λ c. c < length marks.old) cities.now }
    ensures { (c : ℕ) → slice_index_or marks.new c false ≡ (slice_index_or marks.old c false || has cities.now c) }
{
    for city in cities {
        marks[*city as usize] = true;
    }
}

// Whether each tooth has a city outside the handle.
fn each_leaves(teeth: &[CitySet], handle: &CitySet) -> bool
    ensures { result ≡ list_all (λ t. list_any (λ c. not (has handle.now.cities c)) t.cities) teeth.now }
{
    teeth.iter().all(|tooth| leaves(tooth.cities(), handle))
}

// Whether one of the cities is outside the set.
fn leaves(cities: &[u32], set: &CitySet) -> bool
    ensures { result ≡ list_any (λ c. not (has set.now.cities c)) cities.now }
{
    cities.iter().any(|city| !set.contains(*city))
}

// Whether each tooth has a city in the handle.
fn each_enters(teeth: &[CitySet], handle: &CitySet) -> bool
    ensures { result ≡ list_all (λ t. list_any (λ c. has handle.now.cities c) t.cities) teeth.now }
{
    teeth.iter().all(|tooth| enters(tooth.cities(), handle))
}

// Whether one of the cities is in the set.
fn enters(cities: &[u32], set: &CitySet) -> bool
    ensures { result ≡ list_any (λ c. has set.now.cities c) cities.now }
{
    cities.iter().any(|city| set.contains(*city))
}
