//! Tests of the simplex: programs worked, without values, degenerate, and drawn against a plain flow; and of how duals settle.
//!
//! There is nothing to use here. The tests stand beside `simplex` and not in it, so that it is proved once: a crate with tests in it is
//! proved a second time with them.
#![tactic(auto)]

#[cfg(test)]
mod settling;
#[cfg(test)]
mod tests;
