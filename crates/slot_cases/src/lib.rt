//! Tests of saves and loads in two slots, whole and cut off by crashes.
//!
//! There is nothing to use here. The tests stand beside `slotstore` and not in it, so that it is proved once: a crate with tests in it is
//! proved a second time with them.
#![tactic(auto)]

#[cfg(test)]
mod tests;
