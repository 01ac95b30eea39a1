//! The ray of a path that decides every pair: duals that close its node whatever tour it leaves.

ghost use Rattle.std.specs.Prelude.{◌≡◌, ℕ, ◌+◌, ◌*◌, ◌^◌, ◌<◌, ◌≤◌, ◌==◌, ◌&&◌, nat_lt, List, [], length, slice_index, pos, neg_ℤ, ◌<ℤ◌, IfOk, MatchOption};
ghost use Rattle.tspdef.specs.Sets.{has, IsSet, IsProper};
ghost use Rattle.tspdef.specs.Tours.{IsTour};
ghost use Rattle.tspdef.specs.Paths.{IsPath, DecidesAll};
ghost use Rattle.tspdef.specs.Instances.{length_in};
ghost use Rattle.tspdef.specs.Closings as closing_defs;
ghost use Rattle.tspdef.specs.Bounds as bound_defs;
ghost use Rattle.tspdef.specs.Rays as defs;
ghost use Rattle.branchx.specs.Cond.{condition_of, conditions_of};
ghost use Rattle.pricer.specs.Trails.{IsPairBelow};
ghost use Rattle.pricer.specs.Rays.{ends_at, AreDegrees, AreLabels, IsMerge, relabelled, IsFirstFew, IsFirstMany};

use crate::closing::Closing;
use branchx::{Cond, Path};
use cutform::Cut;
use cyc::CitySet;
use std::alloc::{AllocError, Global};
use tspdef::rays_close;
use tspinst::Instance;

/// The closing of a path that decides every pair. The lowest city with one used pair or none has a dual one length above the
/// best; if there is none, the lowest with three or more has it negative; if there is none, and the used pairs are
/// several cycles, the cycle through city 0 is a subtour cut with it; else they are a tour, and all duals are 0. The best
/// is no longer than the used pairs where they are a tour.
pub fn ray(
    alloc: Global,
    instance: &Instance,
    path: &Path,
    best: u64,
) -> Result<Closing, AllocError>
    requires cities { path.now.n ≡ instance.now.n }
    requires decided { DecidesAll instance.now.n path.now.conditions }
    requires best { best < 2 ^ 42 }
    requires shortest { (tour : List ℕ) → IsTour instance.now.n tour → defs.AreStepsOf instance.now.n path.now.conditions tour
        → best ≤ length_in instance.now tour }
    ensures ray { IfOk result (defs.IsRay instance.now.n path.now.conditions best) }
    ensures fits { IfOk result (closing_defs.Fits instance.now.n path.now.conditions) }
    ensures closes { IfOk result (λ c. bound_defs.needed best <ℤ (bound_defs.bound instance.now path.now.conditions c)) }
{
    rays_close();
    ray_of(alloc, instance.n(), path.conditions(), best)
}

fn ray_of(alloc: Global, n: u32, conditions: &[Cond], best: u64) -> Result<Closing, AllocError>
    requires many { 3 ≤ n }
    requires few { n ≤ 2000 }
    requires is_path { IsPath n (conditions_of conditions.now) }
    requires best { best < 2 ^ 42 }
    ensures { IfOk result (defs.IsRay n (conditions_of conditions.now) best) }
{
    let degrees = degrees(alloc, n, conditions)?;
    match first_few(&degrees) {
        Some(city) => city_closing(alloc, n, city, large_dual(best)),
        None => ray_of_enough(alloc, n, conditions, &degrees, best),
    }
}

/// The ray where each city has two used pairs or more.
fn ray_of_enough(
    alloc: Global,
    n: u32,
    conditions: &[Cond],
    degrees: &[usize],
    best: u64,
) -> Result<Closing, AllocError>
    requires many { 3 ≤ n }
    requires few { n ≤ 2000 }
    requires is_path { IsPath n (conditions_of conditions.now) }
    requires best { best < 2 ^ 42 }
    requires degrees { AreDegrees n (conditions_of conditions.now) degrees.now }
    requires enough { (v : ℕ) → v < length degrees.now → 2 ≤ slice_index degrees.now v }
    ensures { IfOk result (defs.IsRay n (conditions_of conditions.now) best) }
{
    match first_many(degrees) {
        Some(city) => city_closing(alloc, n, city, -large_dual(best)),
        None => ray_of_cycles(alloc, n, conditions, best),
    }
}

/// The ray where each city has two used pairs.
fn ray_of_cycles(
    alloc: Global,
    n: u32,
    conditions: &[Cond],
    best: u64,
) -> Result<Closing, AllocError>
    requires many { 3 ≤ n }
    requires few { n ≤ 2000 }
    requires is_path { IsPath n (conditions_of conditions.now) }
    requires best { best < 2 ^ 42 }
    requires pairs { (v : ℕ) → v < n → defs.degree n (conditions_of conditions.now) v ≡ pos 2 }
    ensures { IfOk result (defs.IsRay n (conditions_of conditions.now) best) }
{
    let cycle = first_cycle(alloc, n, conditions)?;
    if cycle.len() < n as usize {
        subtour_closing(alloc, n, cycle, large_dual(best) as u64)
    } else {
        zero_closing(alloc, n)
    }
}

/// One length more than the best, in units.
fn large_dual(best: u64) -> i64
    requires { best < 2 ^ 42 }
    ensures { result ≡ pos (defs.large_dual best) }
{
    (best as i64 + 1) << 20
}

/// How many used pairs each city has.
fn degrees(alloc: Global, n: u32, conditions: &[Cond]) -> Result<Vec<usize>, AllocError>
    requires { IsPath n (conditions_of conditions.now) }
    ensures { IfOk result (λ d. AreDegrees n (conditions_of conditions.now) d.items) }
{
    let mut degrees = vec![in alloc; 0; n as usize]?;
    count_all(n, &mut degrees, conditions);
    Ok(degrees)
}

fn count_all(n: u32, degrees: &mut [usize], conditions: &[Cond])
    requires long { length degrees.old ≡ n }
    requires empty { (v : ℕ) → slice_index degrees.old v ≡ 0 }
    requires is_path { IsPath n (conditions_of conditions.now) }
    ensures { AreDegrees n (conditions_of conditions.now) degrees.new }
{
    for condition in conditions {
        count(degrees, condition);
    }
}

fn count(degrees: &mut [usize], condition: &Cond)
    requires pair { IsPairBelow (length degrees.old) (condition_of condition.now) }
    requires small { (v : ℕ) → slice_index degrees.old v < 2 ^ 63 }
    ensures { (v : ℕ) → slice_index degrees.new v ≡ slice_index degrees.old v + ends_at (condition_of condition.now) v }
{
    if let Cond::Fixed(u, v) | Cond::Present(u, v) = condition {
        degrees[*u as usize] += 1;
        degrees[*v as usize] += 1;
    }
}

/// The lowest city with one used pair or none.
fn first_few(degrees: &[usize]) -> Option<u32>
    requires { length degrees.now ≤ 2000 }
    ensures { MatchOption result ((v : ℕ) → v < length degrees.now → 2 ≤ slice_index degrees.now v) (IsFirstFew degrees.now) }
{
    for i in 0..degrees.len() {
        if degrees[i] <= 1 {
            return Some(i as u32);
        }
    }
    None
}

/// The lowest city with three used pairs or more.
fn first_many(degrees: &[usize]) -> Option<u32>
    requires { length degrees.now ≤ 2000 }
    ensures { MatchOption result ((v : ℕ) → v < length degrees.now → slice_index degrees.now v ≤ 2) (IsFirstMany degrees.now) }
{
    for i in 0..degrees.len() {
        if degrees[i] >= 3 {
            return Some(i as u32);
        }
    }
    None
}

/// The cities that used pairs lead to from city 0.
fn first_cycle(alloc: Global, n: u32, conditions: &[Cond]) -> Result<Vec<u32>, AllocError>
    requires some { 1 ≤ n }
    requires is_path { IsPath n (conditions_of conditions.now) }
    ensures { IfOk result (λ s. defs.IsReached n (conditions_of conditions.now) s.items) }
{
    let mut labels = own_labels(alloc, n)?;
    merge_all(n, &mut labels, conditions);
    labelled_as_first(alloc, n, &labels)
}

/// A label for each city.
fn own_labels(alloc: Global, n: u32) -> Result<Vec<u32>, AllocError>
    ensures long { IfOk result (λ labels. length labels.items ≡ n) }
    ensures own { IfOk result (λ labels. (v : ℕ) → v < n → slice_index labels.items v ≡ v) }
{
    let mut labels = Vec::with_capacity(alloc, n as usize)?;
    for city in 0..n {
        labels.push(city)?;
    }
    Ok(labels)
}

/// Makes the labels of the two cities of each used pair one.
fn merge_all(n: u32, labels: &mut [u32], conditions: &[Cond])
    requires long { length labels.old ≡ n }
    requires own { (v : ℕ) → v < n → slice_index labels.old v ≡ v }
    requires is_path { IsPath n (conditions_of conditions.now) }
    ensures { AreLabels n (conditions_of conditions.now) labels.new }
{
    for condition in conditions {
        merge(labels, condition);
    }
}

fn merge(labels: &mut [u32], condition: &Cond)
    requires { IsPairBelow (length labels.old) (condition_of condition.now) }
    ensures { IsMerge (condition_of condition.now) labels.old labels.new }
{
    if let Cond::Fixed(u, v) | Cond::Present(u, v) = condition {
        let from = labels[*u as usize];
        let to = labels[*v as usize];
        relabel(labels, from, to);
    }
}

/// Puts one label in place of another.
fn relabel(labels: &mut [u32], from: u32, to: u32)
    ensures { (v : ℕ) → v < length labels.old → slice_index labels.new v ≡ relabelled labels.old from to v }
{
    for label in labels.iter_mut() {
        if *label == from {
            *label = to;
        }
    }
}

/// The cities that have the label of city 0.
fn labelled_as_first(alloc: Global, n: u32, labels: &[u32]) -> Result<Vec<u32>, AllocError>
    requires some { 1 ≤ n }
    requires long { length labels.now ≡ n }
    ensures set { IfOk result (λ s. IsSet n s.items) }
    ensures members { IfOk result (λ s. (c : ℕ) → has s.items c ≡ (nat_lt c n && (slice_index labels.now c == slice_index labels.now 0))) }
{
    let home = labels[0];
    let mut cities = Vec::new(alloc);
    for city in 0..n {
        if labels[city as usize] == home {
            cities.push(city)?;
        }
    }
    Ok(cities)
}

/// The closing whose duals are all 0.
fn zero_closing(alloc: Global, n: u32) -> Result<Closing, AllocError>
    ensures { IfOk result (λ c. c ≡ defs.zero_closing n) }
{
    let city = vec![in alloc; 0i64; n as usize]?;
    Ok(Closing::new(city, Vec::new(alloc), Vec::new(alloc)))
}

/// The closing whose duals are 0 but for one city.
fn city_closing(alloc: Global, n: u32, v: u32, dual: i64) -> Result<Closing, AllocError>
    requires { v < n }
    ensures { IfOk result (λ c. c ≡ defs.city_closing n v dual) }
{
    let mut city = vec![in alloc; 0i64; n as usize]?;
    city[v as usize] = dual;
    Ok(Closing::new(city, Vec::new(alloc), Vec::new(alloc)))
}

/// The closing whose duals are 0 but for one subtour cut.
fn subtour_closing(
    alloc: Global,
    n: u32,
    cities: Vec<u32>,
    dual: u64,
) -> Result<Closing, AllocError>
    requires many { 3 ≤ n }
    requires few { n ≤ 2000 }
    requires proper { IsProper n cities.items }
    ensures { IfOk result (λ c. c ≡ defs.subtour_closing n cities.items dual) }
{
    let city = vec![in alloc; 0i64; n as usize]?;
    let set = CitySet::new(alloc, n, cities).map_err(|_| AllocError)?;
    let cut = Cut::subtour(alloc, set).map_err(|_| AllocError)?;
    let mut cuts = Vec::new(alloc);
    cuts.push((cut, dual))?;
    Ok(Closing::new(city, cuts, Vec::new(alloc)))
}
