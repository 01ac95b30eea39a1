//! Tests of the tree and of the leases that a search keeps.
//!
//! There is nothing to use here. The tests stand beside `treebook` and `leasebook` and not in them, so that each is proved once: a crate
//! with tests in it is proved a second time with them.
#![tactic(auto)]

#[cfg(test)]
mod leases;
#[cfg(test)]
mod trees;
