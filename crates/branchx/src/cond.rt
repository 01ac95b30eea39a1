//! One condition.
ghost use Rattle.std.specs.Prelude.{◌≡◌, ℕ, ◌<◌, ◌↔◌, not, IsTrue, IfOk};
ghost use Rattle.tspdef.specs.Sets.{IsComplement};
ghost use Rattle.tspdef.specs.Paths.{IsApartFrom};

use cyc::CitySet;
use std::alloc::{AllocError, Global};

/// What a tour must meet.
#[derive(Debug, PartialEq, Eq, Drop)]
pub enum Cond {
    /// The two cities, the lower one first, are joined by a fixed pair of the instance.
    Fixed(u32, u32),
    /// The two cities, the lower one first, are not joined.
    Absent(u32, u32),
    /// The two cities, the lower one first, are joined.
    Present(u32, u32),
    /// The set is crossed exactly twice.
    Two(CitySet),
    /// The set is crossed four times or more.
    Four(CitySet),
}

impl Cond {
    ghost use Rattle.branchx.specs.Cond.{condition_of, is_fixed, pair_of, decides};

    /// An equal condition.
    pub fn copy(&self, alloc: Global) -> Result<Cond, AllocError>
        ensures { IfOk result (λ c. c ≡ self.now) }
    {
        Ok(match self {
            Cond::Fixed(u, v) => Cond::Fixed(*u, *v),
            Cond::Absent(u, v) => Cond::Absent(*u, *v),
            Cond::Present(u, v) => Cond::Present(*u, *v),
            Cond::Two(set) => Cond::Two(set.copy(alloc)?),
            Cond::Four(set) => Cond::Four(set.copy(alloc)?),
        })
    }

    /// Whether it is a fixed pair.
    #[inline]
    pub fn is_fixed(&self) -> bool
        ensures { result ≡ is_fixed (condition_of self.now) }
    {
        match self {
            Cond::Fixed(_, _) => true,
            Cond::Absent(_, _) | Cond::Present(_, _) | Cond::Two(_) | Cond::Four(_) => false,
        }
    }

    /// The pair that it decides, if it is on a pair.
    #[inline]
    pub fn pair(&self) -> Option<(u32, u32)>
        ensures { result ≡ pair_of (condition_of self.now) }
    {
        match self {
            Cond::Fixed(u, v) | Cond::Absent(u, v) | Cond::Present(u, v) => Some((*u, *v)),
            Cond::Two(_) | Cond::Four(_) => None,
        }
    }

    /// Whether it says of two cities, in either order, if they are joined.
    #[inline]
    pub fn decides(&self, u: u32, v: u32) -> bool
        ensures { result ≡ decides (condition_of self.now) u v }
    {
        match self.pair() {
            Some((a, b)) => (a == u && b == v) || (a == v && b == u),
            None => false,
        }
    }

    /// Whether it is on neither a set of n cities nor its complement.
    pub fn is_apart_from(&self, n: u32, set: &CitySet) -> bool
        ensures { IsTrue result ↔ IsApartFrom n set.now.cities (condition_of self.now) }
    {
        match self {
            Cond::Fixed(_, _) | Cond::Absent(_, _) | Cond::Present(_, _) => true,
            Cond::Two(other) | Cond::Four(other) => are_apart(n, set, other),
        }
    }
}

// Whether the sets are neither equal nor complements in n cities.
fn are_apart(n: u32, set: &CitySet, other: &CitySet) -> bool
    ensures { IsTrue result ↔ ((¬ (other.now.cities ≡ set.now.cities)) × (¬ IsComplement n set.now.cities other.now.cities)) }
{
    other.cities() != set.cities() && !are_complements(n, set, other)
}

fn are_complements(n: u32, set: &CitySet, other: &CitySet) -> bool
    ensures { IsTrue result ↔ IsComplement n set.now.cities other.now.cities }
{
    for city in 0..n {
        if set.contains(city) == other.contains(city) {
            return false;
        }
    }
    true
}
