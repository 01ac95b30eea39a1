//! Tables of texts of both versions, each with what the verifier prints for it.
//!
//! There is nothing to use here. The tests stand beside `verification` and not in it, so that it is proved once: a crate with tests in it is
//! proved a second time with them.
#![tactic(auto)]

#[cfg(test)]
mod runs;
#[cfg(test)]
mod table_tests;
#[cfg(test)]
mod within_tests;
