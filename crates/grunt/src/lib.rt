//! The worker with a linear program: cutting planes and pricing on one node of a search (Dantzig, Fulkerson and Johnson
//! 1954; Applegate, Bixby, Chvátal and Cook, "The Traveling Salesman Problem", 2006).
//!
//! - [`LpWorker`] is the worker: it closes a node, or splits it and says why, and keeps what the children begin with. [`work_by_lp`]
//!   is its work on a node of which nothing is kept.
//! - [`Worker`], [`Work`], [`Why`], [`OddAnswer`], [`Effort`] and [`PlainWorker`] are those of the crate `worker`.
#![tactic(auto)]

mod ages;
mod boxes;
mod efforts;
mod light;
mod missed;
mod odd;
mod offers;
mod probes;
mod proposals;
mod reasons;
mod rounds;
mod splits;
mod starts;
mod walk;
mod work;

pub use work::{LpWorker, work_by_lp};
pub use worker::{Effort, OddAnswer, PlainWorker, Why, Work, Worker};

#[cfg(test)]
mod tests;
