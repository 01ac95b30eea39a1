//! The tour that the pairs which a path uses are.
//!
//! - [`tour_of`] finds it, or tells that no tour has exactly the used pairs as its steps.
//! - [`used_pairs_are_one_tour`]: the law that it is one tour.
#![tactic(auto)]

mod neighbours;
mod rounds;
mod tours;

pub use tours::{tour_of, used_pairs_are_one_tour};

#[cfg(test)]
mod tests;
