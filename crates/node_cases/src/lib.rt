//! Tests of a node's relaxation, over all pairs and over few.
//!
//! There is nothing to use here. The tests stand beside `nodelp` and not in it, so that it is proved once: a crate with tests in it is
//! proved a second time with them.
#![tactic(auto)]

#[cfg(test)]
mod tests;
