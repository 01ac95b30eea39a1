//! Tours, their length, and how often they cross a set.

ghost use Rattle.std.specs.Prelude.{◌≡◌, ◌+◌, ◌*◌, ◌^◌, ◌<◌, ◌≤◌, ◌↔◌, ◌∷◌, IsTrue, length};
ghost use Rattle.std.specs.List.{AllByRecursion};
ghost use Rattle.tspdef.specs.Sets as sets;
ghost use Rattle.tspdef.specs.Tours as tours;
ghost use Rattle.tspdef.specs.Fixed as fixed;
ghost use Rattle.tspdef.specs.Instances as instances;
ghost use Rattle.tspplain.specs.Values.{instance_of};

use crate::paths::joins;
use crate::sets::has;
use crate::values::Instance;

/// The distance of two cities.
pub fn dist(instance: &Instance, u: u32, v: u32) -> u32
    ensures { result ≡ instances.dist (instance_of instance.now) u v }
{
    let (low, high) = (u.min(v), u.max(v));
    let place = u64::from(low) * u64::from(instance.n) + u64::from(high);
    instance.table.get(place as usize).copied().unwrap_or(0)
}

/// The length of a walk from `a` through the rest to `home`.
fn walked(instance: &Instance, home: u32, a: u32, rest: &[u32]) -> u128
    ensures value { result ≡ tours.travelled (instances.dist (instance_of instance.now)) (tours.walk home a rest.now) }
    ensures bound { result < 2 ^ 32 * (length rest.now + 1) }
{
    match rest.split_first() {
        None => u128::from(dist(instance, a, home)),
        Some((b, more)) => u128::from(dist(instance, a, *b)) + walked(instance, home, *b, more),
    }
}

/// The length of a tour.
pub fn tour_length(instance: &Instance, tour: &[u32]) -> u128
    ensures { result ≡ instances.length_in (instance_of instance.now) tour.now }
{
    match tour.split_first() {
        None => 0,
        Some((a, rest)) => walked(instance, *a, *a, rest),
    }
}

/// Whether exactly one of two cities is in the set.
pub fn crosses(set: &[u32], u: u32, v: u32) -> bool
    ensures { result ≡ tours.crosses (sets.has set.now) (u, v) }
{
    has(set, u) != has(set, v)
}

/// How often a walk from `a` through the rest to `home` crosses the set.
fn walk_crossings(set: &[u32], home: u32, a: u32, rest: &[u32]) -> u128
    ensures value { result ≡ tours.crossings (sets.has set.now) (tours.walk home a rest.now) }
    ensures bound { result ≤ length rest.now + 1 }
{
    match rest.split_first() {
        None => u128::from(crosses(set, a, home)),
        Some((b, more)) => u128::from(crosses(set, a, *b)) + walk_crossings(set, home, *b, more),
    }
}

/// How many steps of the tour have exactly one end in the set.
pub fn crossings(set: &[u32], tour: &[u32]) -> u128
    ensures { result ≡ tours.crossings (sets.has set.now) (tours.steps tour.now) }
{
    match tour.split_first() {
        None => 0,
        Some((a, rest)) => walk_crossings(set, *a, *a, rest),
    }
}

/// Whether each city is below `n`.
fn are_below(n: u32, cities: &[u32]) -> bool
    ensures { IsTrue result ↔ AllByRecursion (λ c. c < n) cities.now }
{
    match cities.split_first() {
        None => true,
        Some((c, rest)) => *c < n && are_below(n, rest),
    }
}

/// Whether no city comes twice.
fn are_distinct(cities: &[u32]) -> bool
    ensures { IsTrue result ↔ tours.AreDistinct cities.now }
{
    match cities.split_first() {
        None => true,
        Some((c, rest)) => !has(rest, *c) && are_distinct(rest),
    }
}

/// Whether the list has each of the cities below `n` once.
pub fn is_tour(n: u32, cities: &[u32]) -> bool
    ensures { IsTrue result ↔ tours.IsTour n cities.now }
{
    cities.len() == n as usize && are_below(n, cities) && are_distinct(cities)
}

/// Whether a walk from `a` through the rest to `home` has a step that joins the two cities.
fn walk_joins(u: u32, v: u32, home: u32, a: u32, rest: &[u32]) -> bool
    ensures { result ≡ tours.has_step (tours.walk home a rest.now) u v }
{
    match rest.split_first() {
        None => joins(u, v, a, home),
        Some((b, more)) => joins(u, v, a, *b) || walk_joins(u, v, home, *b, more),
    }
}

/// Whether a step of the tour joins the two cities.
fn has_step(tour: &[u32], u: u32, v: u32) -> bool
    ensures { result ≡ tours.has_step (tours.steps tour.now) u v }
{
    match tour.split_first() {
        None => false,
        Some((a, rest)) => walk_joins(u, v, *a, *a, rest),
    }
}

/// Whether each of the pairs is a step of the tour.
fn are_steps(tour: &[u32], pairs: &[(u32, u32)]) -> bool
    ensures { IsTrue result ↔ fixed.AreSteps (tours.steps tour.now) pairs.now }
{
    match pairs.split_first() {
        None => true,
        Some((pair, rest)) => has_step(tour, pair.0, pair.1) && are_steps(tour, rest),
    }
}

/// Whether the list is a tour of the instance: each city once, and each fixed pair joined.
pub fn is_tour_of(instance: &Instance, cities: &[u32]) -> bool
    ensures { IsTrue result ↔ instances.IsTourOf (instance_of instance.now) cities.now }
{
    is_tour(instance.n, cities) && are_steps(cities, instance.fixed.as_slice())
}

/// The last city of a list that begins with `a`.
fn last_city(a: u32, rest: &[u32]) -> u32
    ensures { result ≡ tours.last_city a rest.now }
{
    match rest.split_first() {
        None => a,
        Some((b, more)) => last_city(*b, more),
    }
}

/// Whether the rest of a list behind city 0 begins with a city that is less than its last.
fn rises_to_last(rest: &[u32]) -> bool
    ensures { IsTrue result ↔ tours.IsCanonical (0 ∷ rest.now) }
{
    match rest.split_first() {
        None => false,
        Some((b, more)) => *b < last_city(*b, more),
    }
}

/// Whether the list begins with city 0, and the second city is less than the last.
pub fn is_canonical(tour: &[u32]) -> bool
    ensures { IsTrue result ↔ tours.IsCanonical tour.now }
{
    match tour.split_first() {
        None => false,
        Some((a, rest)) => *a == 0 && rises_to_last(rest),
    }
}
