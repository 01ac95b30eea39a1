//! The verifier: whether the bytes of a desk's proof are the text of an accepted proof, and else the first refusal.
//!
//! No tree is kept: memory is bounded by the path of the node that is read, a table of the pairs that it decides, the cuts and one leaf,
//! and no recursion follows the depth of the tree.
#![tactic(auto)]

mod answer;
mod bodies;
mod checker;
mod checking;
mod count;
mod following;
mod marked;
mod odd_cuts;
mod part;
mod path;
mod progress;
mod purpose;
mod reading;
mod resuming;
mod sizes;
mod trees;

pub use answer::{Answer, CheckError, Trouble};
pub use checker::Checker;
pub use checking::check;
pub use part::Part;
pub use resuming::{Body, read_body};
pub use sizes::Sizes;
