//! Runs of the verifier over a desk in memory: its answers, its binds, its faults.
//!
//! There is nothing to use here. The tests stand beside `verification` and not in it, so that it is proved once: a crate with tests in it is
//! proved a second time with them.
#![tactic(auto)]

#[cfg(test)]
mod tests;
