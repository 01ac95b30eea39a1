//! A tour as an array of cities with their places, read in either direction, in which a path can be turned round.
//!
//! [`ArrayTour`] has [`new`](ArrayTour::new) and [`tour`](ArrayTour::tour); [`next`](ArrayTour::next),
//! [`prev`](ArrayTour::prev) and [`between`](ArrayTour::between) in O(1); [`flip`](ArrayTour::flip) and
//! [`reverse_path`](ArrayTour::reverse_path), which take at most n/4 exchanges.
#![tactic(auto)]

mod places;
mod tour;

pub use tour::ArrayTour;
