//! Tests of cuts and branches, and of the searches for cuts: each on worked values, and on drawn ones beside a plain program.
//!
//! There is nothing to use here. The tests stand beside the crates that they try and not in them, so that each is proved once: a
//! crate with tests in it is proved a second time with them.
#![tactic(auto)]

#[cfg(test)]
mod blossoms;
#[cfg(test)]
mod branching;
#[cfg(test)]
mod combs;
#[cfg(test)]
mod components;
#[cfg(test)]
mod cut_forms;
#[cfg(test)]
mod intervals;
#[cfg(test)]
mod odd_cuts;
#[cfg(test)]
mod plain;
#[cfg(test)]
mod subtours;
