//! Work on one node of a search, and the plain worker.
//!
//! - [`Worker`] is who works: given a node's path and the best length, it closes the node or splits it.
//! - [`Work`] is what it gives: a report, perhaps a tour found on the way, of a split by a linear program the reason, and
//!   in [`Effort`] what it cost.
//! - [`level`] is the length that closings are to show where a gap is allowed, [`whole_length`] a bound as one.
//! - [`PlainWorker`] knows zero duals, rays and splits alone; [`work_plainly`] is its work, and [`first_look`] what it does
//!   where it needs no split. [`zeros_that_close`] are the zero duals, where they suffice, and [`zero_bound`] is their worth.
//! - [`root_path`] is the path of an instance's root, with which every path begins.
//! - [`paths_are_short`]: the law that a path has few conditions beside those on sets.
#![tactic(auto)]

mod effort;
mod laws;
mod levels;
mod plain;
mod roots;
mod work;
mod workers;
mod zeros;

pub use effort::Effort;
pub use laws::paths_are_short;
pub use levels::{level, whole_length};
pub use plain::{PlainWorker, first_look, work_plainly};
pub use roots::root_path;
pub use work::{OddAnswer, Why, Work};
pub use workers::Worker;
pub use zeros::{zero_bound, zeros_that_close};

#[cfg(test)]
mod tests;
