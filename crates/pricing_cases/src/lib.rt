//! Tests of bounds, closings, rays and rounding.
//!
//! There is nothing to use here. The tests stand beside `pricer` and not in it, so that it is proved once: a crate with tests in it is
//! proved a second time with them.
#![tactic(auto)]

#[cfg(test)]
mod compared;
#[cfg(test)]
mod tests;
