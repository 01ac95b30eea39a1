//! The search tree, as a table of nodes.
//!
//! - [`Tree`] starts as one open node, the root, and grows as open nodes are closed or split, without memory where it
//!   has room.
//! - [`State`] is what a node is.
//! - [`tables_are_trees`], [`tables_grow`], [`tables_cover`], [`tables_are_sound`]: which tree of the definitions a
//!   table stands for, and what closing and splitting do to it.
#![tactic(auto)]

mod borne;
mod laws;
mod node;
mod on_path;
mod tree;
mod walk;

pub use laws::{tables_are_sound, tables_are_trees, tables_cover, tables_grow};
pub use node::State;
pub use tree::Tree;
