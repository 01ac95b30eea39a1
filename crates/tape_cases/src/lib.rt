//! Tests of `tapeboss`: worked tapes, tapes and texts that are refused, and a tape each of whose bytes is changed.
//!
//! There is nothing to use here. The tests stand beside `tapeboss` and not in it, so that both are proved side by side.
#![tactic(auto)]

#[cfg(test)]
mod changed;
#[cfg(test)]
mod refusals;
#[cfg(test)]
mod squares;
#[cfg(test)]
mod tests;
