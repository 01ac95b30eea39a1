//! Tests of the plain programs over instances, cuts, closings and trees.
//!
//! There is nothing to use here. The tests stand beside `tspplain` and not in it, so that it is proved once: a crate with tests in it is
//! proved a second time with them.
#![tactic(auto)]

#[cfg(test)]
mod tests;
