//! One-trees, and the lower bound that they give (Held and Karp 1970).
//!
//! - [`least_tree`] gives a one-tree for some duals than which no one-tree is lighter.
//! - [`held_karp`] gives the value of some duals, and [`proved_length`] the length that no tour is below then.
//! - [`ascend`] gives duals of a high value, and [`sized`] makes duals of any proposals.
//! - [`bound_of`] gives the greatest bound that some duals prove.
//! - [`write`] writes the certificate of some duals and the greatest bound that they prove.
//! - [`check`] judges a certificate.
//! - [`tours_are_one_trees`]: the law that the bound rests on, and [`answers_are_one`]: that bytes have one answer.
#![tactic(auto)]

mod answer;
mod ascent;
mod checking;
mod climb;
mod cost;
mod error;
mod frontier;
mod heading;
mod laws;
mod lines;
mod tree;
mod value;
mod writing;

pub use answer::{Answer, CheckError};
pub use ascent::{ascend, sized};
pub use checking::check;
pub use error::WriteError;
pub use laws::{answers_are_one, tours_are_one_trees, written_is_accepted};
pub use tree::{OneTree, least_tree};
pub use value::{held_karp, proved_length};
pub use writing::{bound_of, write};
