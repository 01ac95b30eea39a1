//! Tests of instance texts, and of the refusals of texts that are none.
//!
//! There is nothing to use here. The tests stand beside `tspinst` and not in it, so that it is proved once: a crate with tests in it is
//! proved a second time with them.
#![tactic(auto)]

#[cfg(test)]
mod tests;
