//! Sets of cities.
ghost use Rattle.std.specs.Prelude.{◌≡◌, ◌<◌, ◌≤◌, ◌↔◌, length, IfOk, IsErrOf, IsTrue};
ghost use Rattle.tspdef.specs.Sets.{has, IsSet, IsProper};
ghost use Rattle.cyc.specs.Marks.{AreMarksOf};

use crate::marks::Marks;
use std::alloc::{AllocError, Global};
use std::error::Error;
use std::fmt;
use std::marker::Model;

/// Why a list of cities is no set.
#[derive(Clone, Copy, Debug, PartialEq, Eq)]
pub enum CitySetError {
    /// The cities do not rise strictly, or one is no city.
    NotRising,
    /// There is no memory.
    NoMemory,
}

impl fmt::Display for CitySetError {
    fn fmt<W: fmt::Write>(&self, f: &mut fmt::Formatter<W>) -> fmt::Result {
        match self {
            CitySetError::NotRising => write!(f, "the cities do not rise"),
            CitySetError::NoMemory => write!(f, "out of memory"),
        }
    }
}

impl Error for CitySetError {}

impl From<AllocError> for CitySetError {
    ghost use Rattle.std.specs.Prelude.{◌≡◌};
    ghost use Rattle.cyc.specs.declared.city_set.CitySetError.TheVariants.{NoMemory};

    ghost from_gives = { λ _ e. e ≡ NoMemory };

    fn from(_: AllocError) -> CitySetError {
        CitySetError::NoMemory
    }
}

/// A set of up to so many cities is looked up in its list and has no marks, so that it is made by one allocation less.
const FEW: usize = 4;

/// Some of n cities. Contracts see n and the list of the cities, which rises.
#[derive(Debug, Drop)]
pub struct CitySet {
    n: u32,
    cities: Vec<u32>,
    members: Marks,
}

impl Model for CitySet {
    ghost use Rattle.cyc.specs.CitySet.{Members};

    ghost Value = { Members };

    ghost use Rattle.cyc.specs.CitySetInside.{members_of, IsMarked};

    ghost view = { members_of };

    ghost invariant = { IsMarked };
}

impl CitySet {
    /// The set of some cities, listed in rising order.
    pub fn new(alloc: Global, n: u32, cities: Vec<u32>) -> Result<CitySet, CitySetError>
        requires many { 3 ≤ n }
        requires few { n ≤ 2000 }
        ensures ok { IfOk result (λ set. (set ≡ record { n = n; cities = cities.items }) × IsSet n cities.items) }
        ensures not_rising { IsErrOf result CitySetError.NotRising → ¬ IsSet n cities.items }
    {
        if !is_rising(n, &cities) {
            return Err(CitySetError::NotRising);
        }
        let members = if cities.len() <= FEW {
            Marks::no_room(alloc)
        } else {
            marks_of(alloc, n, &cities)?
        };
        Ok(CitySet { n, cities, members })
    }

    /// How many cities there are in all.
    pub fn n(&self) -> u32
        ensures value { result ≡ self.now.n }
        ensures many { 3 ≤ result }
        ensures few { result ≤ 2000 }
    {
        self.n
    }

    /// The cities of the set, in rising order.
    pub fn cities(&self) -> &[u32]
        ensures value { result.now ≡ self.now.cities }
        ensures set { IsSet self.now.n self.now.cities }
    {
        &self.cities
    }

    /// Whether a city is in the set.
    #[inline]
    pub fn contains(&self, city: u32) -> bool
        ensures { result ≡ has self.now.cities city }
    {
        if self.cities.len() <= FEW {
            is_listed(&self.cities, city)
        } else {
            self.members.is_marked(city)
        }
    }

    /// Whether the set is neither empty nor all cities.
    pub fn is_proper(&self) -> bool
        ensures { IsTrue result ↔ IsProper self.now.n self.now.cities }
    {
        !self.cities.is_empty() && self.cities.len() < self.n as usize
    }

    /// An equal set.
    pub fn copy(&self, alloc: Global) -> Result<CitySet, AllocError>
        ensures { IfOk result (λ set. set ≡ self.now) }
    {
        Ok(CitySet {
            n: self.n,
            cities: Vec::from_slice(alloc, &self.cities)?,
            members: self.members.copy(alloc)?,
        })
    }
}

impl PartialEq for CitySet {
    ghost use Rattle.std.specs.Prelude.{◌==◌};
    ghost use Rattle.std.specs.Ordering.{on, eq_of_both};
    ghost use Rattle.std.specs.Cmp.Lexicographic.{pointwise};
    ghost use Rattle.std.specs.Cmp.Rules.{comparing};
    ghost use Rattle.std.proofs.Common.{rules};

    ghost eq = { eq_of_both (on (λ s. s.n) ◌==◌) (on (λ s. s.cities) (pointwise ◌==◌)) };

    ghost laws = { Prim.search (comparing, rules) };

    fn eq(&self, other: &CitySet) -> bool {
        self.n == other.n && self.cities.as_slice() == other.cities.as_slice()
    }
}

impl Eq for CitySet {
    ghost use Rattle.std.specs.Cmp.Rules.{comparing};
    ghost use Rattle.std.proofs.Common.{rules};

    ghost laws = { Prim.search (comparing, rules) };
}

/// Whether the cities rise strictly, below `n`.
fn is_rising(n: u32, cities: &[u32]) -> bool
    ensures { IsTrue result ↔ IsSet n cities.now }
{
    let mut least = 0;
    for city in cities {
        if *city < least || *city >= n {
            return false;
        }
        least = *city + 1;
    }
    true
}

/// Whether a city is one of a list.
#[inline]
fn is_listed(cities: &[u32], city: u32) -> bool
    ensures { result ≡ has cities.now city }
{
    for listed in cities {
        if *listed == city {
            return true;
        }
    }
    false
}

/// Marks on some cities below `n`.
fn marks_of(alloc: Global, n: u32, cities: &[u32]) -> Result<Marks, AllocError>
    requires { IsSet n cities.now }
    ensures { IfOk result (λ marks. AreMarksOf cities.now marks) }
{
    let mut marks = Marks::none(alloc, n)?;
    for city in cities {
        marks.mark(*city);
    }
    Ok(marks)
}
