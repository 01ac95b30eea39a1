//! Tests of the pool of cuts and its seats.
//!
//! There is nothing to use here. The tests stand beside `cutpool` and not in it, so that it is proved once: a crate with tests in it is
//! proved a second time with them.
#![tactic(auto)]

#[cfg(test)]
mod seat_tests;
#[cfg(test)]
mod tests;
