//! The definitions of `tspdef` as plain, slow programs, written to be read: what later bodies are compared with.
//!
//! Each public function computes one definition, and its contract is that definition. Recursion goes as the
//! definition's does. Lengths are in the instance's own unit, duals and bounds in units of 2^-20 of it. The programs over
//! sets as bits ([`bits`], [`drawn`], [`separation`]) are for tests. Contracts say what they compute, but for two kinds: of values
//! that look drawn only how many cities there are, and of the blossoms and combs that are found only that each is missed.
#![tactic(auto)]

pub mod bits;
pub mod bounds;
pub mod closings;
pub mod cuts;
pub mod distances;
pub mod drawn;
pub mod odd_cuts;
pub mod paths;
pub mod search;
pub mod separation;
pub mod sets;
pub mod tours;
pub mod trees;
pub mod values;
