//! The tests that the lines of a proof text are judged by, as calls: each answers what the test's definition says.
//!
//! - [`city_set`] and [`is_proper`] are of sets, [`subtour`], [`comb`] and [`odd`] of cuts.
//! - [`canonical_tour`] and [`has_length`] are of the tour.
//! - [`names_clique`], [`closes`] and [`closes_in_place`] are of closed leaves.
#![tactic(auto)]

mod cuts;
mod duals;
mod leaves;
mod merging;
mod moving;
mod sets;
mod steps;
mod tours;

pub use cuts::{comb, odd, subtour};
pub use leaves::{closes, closes_in_place, closing_if_enough, names_clique};
pub use sets::{city_set, is_proper};
pub use tours::{canonical_tour, has_length};
