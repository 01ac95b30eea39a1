//! Tests of desks, slots, posts and gates, in memory and over files.
//!
//! There is nothing to use here. The tests stand beside `ports` and not in it, so that it is proved once: a crate with tests in it is
//! proved a second time with them.
#![tactic(auto)]

#[cfg(test)]
mod tests;
