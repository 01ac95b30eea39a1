//! Verdicts of `certcheck` on whole texts, on texts in pieces, and on each line at the limits of its form.
//!
//! There is nothing to use here. The tests stand beside `certcheck` and not in it, so that it is proved once: a crate with tests in it is
//! proved a second time with them.
#![tactic(auto)]

#[cfg(test)]
mod checker_tests;
#[cfg(test)]
mod form_tests;
#[cfg(test)]
mod tests;
