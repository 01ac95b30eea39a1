//! What is near: for each city of an instance the cities nearest to it, and the walk that goes to the nearest city
//! each time.
//!
//! - [`Neigh`] has a list of near cities for each city; [`nearest`] makes the lists of the `k` nearest.
//! - [`nearest_walk`] makes the nearest-neighbour tour, which has the fixed pairs.
//! - [`tours_exist`] is a law: each instance has a tour, whatever pairs it fixes.
#![tactic(auto)]

mod keeping;
mod lists;
mod walk;

pub use lists::{Neigh, nearest};
pub use walk::{nearest_walk, tours_exist};
