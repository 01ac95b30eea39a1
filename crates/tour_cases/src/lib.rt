//! Tests of tours, flips, lists of neighbours, and of what a search begins with.
//!
//! There is nothing to use here. The tests stand beside the crates that they try and not in them, so that each is proved once: a crate
//! with tests in it is proved a second time with them.
#![tactic(auto)]

#[cfg(test)]
mod array_tours;
#[cfg(test)]
mod cities;
#[cfg(test)]
mod least;
#[cfg(test)]
mod neighbours;
#[cfg(test)]
mod openings;
#[cfg(test)]
mod tour_texts;
