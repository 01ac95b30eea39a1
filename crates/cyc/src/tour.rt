//! Tours.
ghost use Rattle.std.specs.Prelude.{◌≡◌, ◌-◌, ◌<◌, ◌≤◌, ◌↔◌, true, nat_lt, if◌then◌else◌, ◌++◌, length, vec_len, slice_index, take, drop, reverse, IfOk, IsErrOf, IsTrue};
ghost use Rattle.std.specs.List.{range_with_len};
ghost use Rattle.tspdef.specs.Sets.{has};
ghost use Rattle.tspdef.specs.Tours.{IsTour, steps, crossings, IsCanonicalForm};
ghost use Rattle.cyc.specs.Tour.{AreApart, IsWhole};

use crate::city_set::CitySet;
use crate::marks::Marks;
use std::alloc::{AllocError, Global};
use std::error::Error;
use std::fmt;
use std::marker::Model;

/// Why a list of cities is no tour.
#[derive(Clone, Copy, Debug, PartialEq, Eq)]
pub enum TourError {
    /// It does not have each city once.
    NotATour,
    /// There is no memory.
    NoMemory,
}

impl fmt::Display for TourError {
    fn fmt<W: fmt::Write>(&self, f: &mut fmt::Formatter<W>) -> fmt::Result {
        match self {
            TourError::NotATour => write!(f, "the cities are no tour"),
            TourError::NoMemory => write!(f, "out of memory"),
        }
    }
}

impl Error for TourError {}

impl From<AllocError> for TourError {
    ghost use Rattle.std.specs.Prelude.{◌≡◌};
    ghost use Rattle.cyc.specs.declared.tour.TourError.TheVariants.{NoMemory};

    ghost from_gives = { λ _ e. e ≡ NoMemory };

    fn from(_: AllocError) -> TourError {
        TourError::NoMemory
    }
}

/// A tour: each of n cities once, gone through in turn, and then back to the first. Contracts see the list of its cities.
#[derive(Debug, Drop)]
pub struct Tour {
    cities: Vec<u32>,
}

impl Model for Tour {
    ghost use Rattle.std.specs.Prelude.{ℕ, List};
    ghost use Rattle.cyc.specs.Tour.{IsWhole};

    ghost Value = { List ℕ };

    ghost view = { λ t. t.cities.items };

    ghost invariant = { λ t. IsWhole t.cities.items };
}

impl Tour {
    /// The tour 0, 1, .. n - 1.
    pub fn identity(alloc: Global, n: u32) -> Result<Tour, AllocError>
        requires many { 3 ≤ n }
        requires few { n ≤ 2000 }
        ensures { IfOk result (λ tour. tour ≡ range_with_len 0 n) }
    {
        Ok(Tour {
            cities: numbers(alloc, n)?,
        })
    }

    /// The tour through a list of cities.
    pub fn new(alloc: Global, n: u32, cities: Vec<u32>) -> Result<Tour, TourError>
        requires many { 3 ≤ n }
        requires few { n ≤ 2000 }
        ensures ok { IfOk result (λ tour. (tour ≡ cities.items) × IsTour n cities.items) }
        ensures not_a_tour { IsErrOf result TourError.NotATour → ¬ IsTour n cities.items }
    {
        if cities.len() != n as usize || !are_apart(alloc, n, &cities)? {
            return Err(TourError::NotATour);
        }
        Ok(Tour { cities })
    }

    /// How many cities there are.
    pub fn n(&self) -> u32
        ensures value { result ≡ length self.now }
        ensures many { 3 ≤ result }
        ensures few { result ≤ 2000 }
    {
        self.cities.len() as u32
    }

    /// The cities in turn.
    pub fn cities(&self) -> &[u32]
        ensures value { result.now ≡ self.now }
        ensures whole { IsWhole self.now }
    {
        &self.cities
    }

    /// How many steps of the tour have exactly one end in the set.
    pub fn crossings(&self, set: &CitySet) -> u32
        requires { set.now.n ≡ length self.now }
        ensures { result ≡ crossings (has set.now.cities) (steps self.now) }
    {
        count_crossings(&self.cities, set)
    }

    /// The same cycle in its canonical form: city 0 comes first, and the second city is less than the last.
    pub fn canonical(&self, alloc: Global) -> Result<Tour, AllocError>
        ensures { IfOk result (λ form. IsCanonicalForm self.now form) }
    {
        Ok(Tour {
            cities: canonical_form(alloc, &self.cities)?,
        })
    }

    /// Becomes equal to another tour of as many cities, without memory.
    pub fn become_equal(&mut self, other: &Tour)
        requires { length self.old ≡ length other.now }
        ensures { self.new ≡ other.now }
    {
        self.cities.copy_from_slice(&other.cities);
    }

    /// An equal tour.
    pub fn copy(&self, alloc: Global) -> Result<Tour, AllocError>
        ensures { IfOk result (λ tour. tour ≡ self.now) }
    {
        Ok(Tour {
            cities: Vec::from_slice(alloc, &self.cities)?,
        })
    }
}

impl PartialEq for Tour {
    ghost use Rattle.std.specs.Prelude.{◌==◌};
    ghost use Rattle.std.specs.Cmp.Lexicographic.{pointwise};
    ghost use Rattle.std.specs.Cmp.Rules.{comparing};
    ghost use Rattle.std.proofs.Common.{rules};

    ghost eq = { pointwise ◌==◌ };

    ghost laws = { Prim.search (comparing, rules) };

    fn eq(&self, other: &Tour) -> bool {
        self.cities.as_slice() == other.cities.as_slice()
    }
}

impl Eq for Tour {
    ghost use Rattle.std.specs.Cmp.Rules.{comparing};
    ghost use Rattle.std.proofs.Common.{rules};

    ghost laws = { Prim.search (comparing, rules) };
}

/// Whether the cities are below `n` and all different.
fn are_apart(alloc: Global, n: u32, cities: &[u32]) -> Result<bool, AllocError>
    ensures { IfOk result (λ apart. IsTrue apart ↔ AreApart n cities.now) }
{
    let mut seen = Marks::none(alloc, n)?;
    for city in cities {
        if *city >= n || seen.is_marked(*city) {
            return Ok(false);
        }
        seen.mark(*city);
    }
    Ok(true)
}

/// The numbers below `n`, in order.
fn numbers(alloc: Global, n: u32) -> Result<Vec<u32>, AllocError>
    ensures { IfOk result (λ v. v.items ≡ range_with_len 0 n) }
{
    (0..n).collect(alloc)
}

/// How many steps of a tour have exactly one end in the set.
fn count_crossings(cities: &[u32], set: &CitySet) -> u32
    requires some { 0 < length cities.now }
    requires few { length cities.now ≤ 2000 }
    ensures { result ≡ crossings (has set.now.cities) (steps cities.now) }
{
    let home = set.contains(cities[0]);
    let mut inside = home;
    let mut count = 0;
    for city in cities {
        let enters = set.contains(*city);
        if enters != inside {
            count += 1;
        }
        inside = enters;
    }
    if inside != home { count + 1 } else { count }
}

/// The canonical form of a tour.
fn canonical_form(alloc: Global, cities: &[u32]) -> Result<Vec<u32>, AllocError>
    requires { IsWhole cities.now }
    ensures { IfOk result (λ form. IsCanonicalForm cities.now form.items) }
{
    let home = place_of_home(cities);
    let form = turned(alloc, cities, home)?;
    Ok(rising(form))
}

/// Where city 0 stands.
fn place_of_home(cities: &[u32]) -> usize
    requires { has cities.now 0 ≡ true }
    ensures within { result < length cities.now }
    ensures home { slice_index cities.now result ≡ 0 }
{
    for (place, city) in cities.iter().enumerate() {
        if *city == 0 {
            return place;
        }
    }
    unreachable!()
}

/// The cities from a place on, and then those before it.
fn turned(alloc: Global, cities: &[u32], place: usize) -> Result<Vec<u32>, AllocError>
    requires { place ≤ length cities.now }
    ensures { IfOk result (λ v. v.items ≡ drop place cities.now ++ take place cities.now) }
{
    let mut turned = Vec::with_capacity(alloc, cities.len())?;
    turned.extend_from_slice(&cities[place..])?;
    turned.extend_from_slice(&cities[..place])?;
    Ok(turned)
}

/// The same cycle from the same city on, in the direction in which the second city is less than the last.
fn rising(mut form: Vec<u32>) -> Vec<u32>
    requires { 2 ≤ vec_len form }
    ensures { result.items ≡ (if nat_lt (slice_index form.items (vec_len form - 1)) (slice_index form.items 1)
        then take 1 form.items ++ reverse (drop 1 form.items) else form.items) }
{
    if form[form.len() - 1] < form[1] {
        form[1..].reverse();
    }
    form
}
