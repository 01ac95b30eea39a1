//! Fixed-point numbers: whole counts of 2^-32, added exactly, and multiplied and divided with a rounding that the
//! caller names.
#![tactic(auto)]

mod fix;
mod quotient;

pub use fix::Fix;

#[cfg(test)]
mod tests;
