//! Tests of coordinates, of pictures, and of whole views.
//!
//! There is nothing to use here. The tests stand beside the crates that they try and not in them, so that each is proved once: a crate
//! with tests in it is proved a second time with them.
#![tactic(auto)]

#[cfg(test)]
mod pictures;
#[cfg(test)]
mod points;
#[cfg(test)]
mod views;
