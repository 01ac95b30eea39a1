//! Tours, sets of cities, and values on pairs of cities. Cities are numbered from 0; there are 3 to 2,000 of them,
//! which whoever makes a value sees to.
#![tactic(auto)]

mod city_set;
mod frac;
mod marks;
mod tour;

pub use city_set::{CitySet, CitySetError};
pub use frac::{Entry, Frac, FracError, sums_go_by_entries};
pub use tour::{Tour, TourError};
