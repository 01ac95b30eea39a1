//! Tests of flows and shrinking, worked and against a plain program.
//!
//! There is nothing to use here. The tests stand beside `maxflow` and not in it, so that it is proved once: a crate with tests in it is
//! proved a second time with them.
#![tactic(auto)]

#[cfg(test)]
mod tests;
