//! The pool of cuts: what one worker found may serve another.
//!
//! - [`CutPool`] is a list of distinct cuts of n cities, numbered from 0 in the order in which they came. [`Placed`] is what
//!   putting one in tells.
//! - [`CutBox`] is what a worker on a node sees of a pool: it shares cuts, and fetches those that its values violate.
//! - [`SharedPool`] is a pool that threads share through `&`: each shares and fetches from a [`Seat`] of its own, and reads
//!   back what it shared. [`Seated`] is what sharing a cut there tells.
//! - [`worth_adding`] are those of some cuts, from whatever box, that are worth a row for the values.
//! - [`NoCuts`] is a box that keeps and gives nothing.
//!
//! A pool is that of Applegate, Bixby, Chvátal and Cook, The Traveling Salesman Problem, with exact tests of violation.
#![tactic(auto)]

mod nears;
mod pool;
mod seat;
mod sharing;
mod sifting;
mod violated;

pub use pool::{CutPool, Placed};
pub use seat::{Seat, Seated, SharedPool};
pub use sharing::{CutBox, NoCuts};
pub use sifting::worth_adding;
