//! Branching: the conditions on tours from the root of a search tree to a node, and by what the node is split.
//!
//! An edge split asks whether two cities are joined; a clique split whether a set is crossed twice or more often.
#![tactic(auto)]

mod branch;
mod choice;
mod cond;
mod fit;
mod nearest;
mod path;
mod table;

pub use branch::Branch;
pub use choice::choose;
pub use cond::Cond;
pub use path::{Path, decided, is_new};
