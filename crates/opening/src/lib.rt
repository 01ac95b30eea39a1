//! The tour that a search starts with.
//!
//! - [`find_opening`] makes it: the nearest-neighbour walk, improved by chained Lin-Kernighan.
//! - [`Opening`] is that tour, with the near lists that it was improved over.
#![tactic(auto)]

ghost use Rattle.std.specs.Prelude.{IfOk};
ghost use Rattle.opening.specs.Openings.{IsOpening};

use cyc::Tour;
use linkern::improve;
use neigh::{Neigh, nearest, nearest_walk};
use std::alloc::{AllocError, Global};
use tspinst::Instance;

/// How many near cities each list has, where there are so many others.
const NEAR: u32 = 10;

/// A tour to start with, and the near lists that it was improved over.
#[derive(Drop)]
pub struct Opening {
    pub near: Neigh,
    pub tour: Tour,
}

/// The nearest-neighbour walk, improved with a kick for each city over the lists of the ten nearest cities, or of all others where
/// there are fewer. The kicks are drawn from the seed: the same seed gives the same tour.
///
/// The tour holds the fixed pairs, it is no longer than the walk, and no exchange of two steps that are not fixed, with a
/// replacement in the near lists, shortens it.
/// O(n^2) for the walk and the lists, and about O(n) for the search.
pub fn find_opening(alloc: Global, instance: &Instance, seed: u64) -> Result<Opening, AllocError>
    ensures { IfOk result (IsOpening instance.now) }
{
    let n = instance.n();
    let near = nearest(alloc, instance, NEAR.min(n - 1))?;
    let walk = nearest_walk(alloc, instance)?;
    let _n = walk.n();
    let tour = improve(alloc, instance, &near, &walk, n, seed)?;
    Ok(Opening { near, tour })
}
