//! A test of `certcheck` beside `certform`: proofs of which one byte is another, and what the plain definitions say of them.
//!
//! There is nothing to use here.
#![tactic(auto)]

#[cfg(test)]
mod changed_bytes;
