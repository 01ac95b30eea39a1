//! Cuts: lists of sets of cities with a right side that every tour meets.
//!
//! A subtour cut is one proper set with right side 2. A comb is a proper handle and an odd number, three or more, of
//! teeth that do not meet, each with a city in the handle and one outside; with s teeth its right side is 3s + 1. An odd
//! cut is a proper handle and an odd number of different pairs, 4,095 at most, each with one end in the handle; pairs may share
//! cities; with s pairs its right side is 3s + 1. It is kept as its handle and its pairs, and not as s + 1 sets.
#![tactic(auto)]

mod comb;
mod cut;
mod error;
mod odd;
mod pairs;

pub use cut::{Cut, Kind};
pub use error::CutError;
