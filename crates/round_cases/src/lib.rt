//! Tests of `tspround`: worked searches of the square by the plain worker, in turns and in rounds of threads.
//!
//! There is nothing to use here. The tests stand beside `tspround` and not in it, so that both are proved side by side.
#![tactic(auto)]

#[cfg(test)]
mod round_tests;
#[cfg(test)]
mod tests;
