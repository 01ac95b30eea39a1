//! Worked values of the tests that the lines of a proof text are judged by.
//!
//! There is nothing to use here. The tests stand beside `certtests` and not in it, so that it is proved once: a crate with tests in it is
//! proved a second time with them.
#![tactic(auto)]

#[cfg(test)]
mod tests;
