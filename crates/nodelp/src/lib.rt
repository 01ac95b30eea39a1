//! The linear relaxation of one node of a search, kept between its solves: rows of the cities, of the path's conditions on
//! sets, and of cuts, over a core of pairs that grows by pricing (Dantzig, Fulkerson and Johnson 1954; Applegate, Bixby,
//! Chvátal and Cook, "The Traveling Salesman Problem", 2006, chapters 7 and 12).
//!
//! - [`NodeLp::new`] sets it up, or [`NodeLp::over`] and [`NodeLp::begin_with`] from what a like one had; [`NodeLp::solve`] solves it.
//! - [`NodeLp::without`] is a program of the same node that lacks some of its cuts.
//! - [`NodeLp::add_cuts`] and [`NodeLp::add_negative`] add what the newest answer lacks.
//! - [`NodeLp::closing`] is what its duals are worth to a proof.
#![tactic(auto)]

mod basis;
mod closing;
mod columns;
mod cuts;
mod node;
mod pricing;
mod rows;

pub use node::NodeLp;
