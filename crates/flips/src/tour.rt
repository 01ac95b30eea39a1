//! Tours in an array.

ghost use Rattle.std.specs.Prelude.{◌≡◌, ◌≢◌, ◌<◌, ◌≤◌, length, slice_index, IfOk};
ghost use Rattle.tspdef.specs.Tours.{IsTour};
ghost use Rattle.flips.specs.Cycles.{Follows, is_between, IsFlipped};

use crate::places::Places;
use cyc::{Tour, TourError};
use std::alloc::{AllocError, Global};
use std::marker::Model;

/// A tour of 3 to 2,000 cities in which a path can be turned round. Contracts see its cities in turn, from some city on,
/// in the direction in which it is read.
#[derive(Drop)]
pub struct ArrayTour {
    places: Places,
    backward: bool,
}

impl Model for ArrayTour {
    ghost use Rattle.std.specs.Prelude.{ℕ, List};
    ghost use Rattle.flips.specs.Places.{read};

    ghost Value = { List ℕ };

    ghost view = { λ t. read t.backward t.places.order.items };
}

impl ArrayTour {
    /// The array of a tour.
    pub fn new(alloc: Global, tour: &Tour) -> Result<ArrayTour, AllocError>
        ensures { IfOk result (λ t. t ≡ tour.now) }
    {
        Ok(ArrayTour {
            places: Places::new(alloc, tour.cities())?,
            backward: false,
        })
    }

    /// How many cities there are.
    #[inline]
    pub fn n(&self) -> u32
        ensures value { result ≡ length self.now }
        ensures many { 3 ≤ result }
        ensures few { result ≤ 2000 }
        ensures tour { IsTour (length self.now) self.now }
    {
        self.places.n()
    }

    /// The city at a place of the list that contracts see.
    #[inline]
    pub fn at(&self, place: u32) -> u32
        requires { place < length self.now }
        ensures inside { result < length self.now }
        ensures value { result ≡ slice_index self.now place }
    {
        self.places.at(self.backward, place)
    }

    /// Where a city stands in the list that contracts see.
    #[inline]
    pub fn place(&self, a: u32) -> u32
        requires { a < length self.now }
        ensures inside { result < length self.now }
        ensures value { slice_index self.now result ≡ a }
    {
        self.places.place_of(self.backward, a)
    }

    /// The city after `a`.
    #[inline]
    pub fn next(&self, a: u32) -> u32
        requires { a < length self.now }
        ensures inside { result < length self.now }
        ensures follows { Follows self.now a result }
    {
        self.places.next(self.backward, a)
    }

    /// The city before `a`.
    #[inline]
    pub fn prev(&self, a: u32) -> u32
        requires { a < length self.now }
        ensures inside { result < length self.now }
        ensures follows { Follows self.now result a }
    {
        self.places.prev(self.backward, a)
    }

    /// Whether a walk on from `a` meets `b` no later than `c`.
    #[inline]
    pub fn between(&self, a: u32, b: u32, c: u32) -> bool
        requires first { a < length self.now }
        requires second { b < length self.now }
        requires third { c < length self.now }
        ensures { result ≡ is_between self.now a b c }
    {
        self.places.between(self.backward, a, b, c)
    }

    /// Turns the path from `b` on to `c` round, by at most n/4 exchanges.
    pub fn reverse_path(&mut self, b: u32, c: u32)
        requires first { b < length self.old }
        requires last { c < length self.old }
        ensures size { length self.new ≡ length self.old }
        ensures flips { IsFlipped self.old self.new b c }
    {
        self.backward = self.places.reverse_path(self.backward, b, c);
    }

    /// Steps `ab` and `cd` become `ac` and `bd`: the path from `b` on to `c` is turned round.
    pub fn flip(&mut self, a: u32, b: u32, c: u32, d: u32)
        requires into { Follows self.old a b }
        requires out_of { Follows self.old c d }
        ensures size { length self.new ≡ length self.old }
        ensures flips { IsFlipped self.old self.new b c }
    {
        let _steps = (a, d, self.n());
        self.reverse_path(b, c);
    }

    /// The tour, in the direction in which it is read.
    pub fn tour(&self, alloc: Global) -> Result<Tour, AllocError>
        ensures { IfOk result (λ tour. tour ≡ self.now) }
    {
        let mut cities = Vec::from_slice(alloc, self.places.order())?;
        if self.backward {
            cities.reverse();
        }
        match Tour::new(alloc, self.n(), cities) {
            Ok(tour) => Ok(tour),
            Err(TourError::NoMemory) => Err(AllocError),
            Err(TourError::NotATour) => unreachable!(),
        }
    }
}
