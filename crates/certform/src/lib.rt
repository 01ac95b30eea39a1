//! The text of a proof: it is written for a tour and a tree, and read as a form.
//!
//! - [`body`] makes the bytes for a tour and a tree, and [`write`] writes them to a desk.
//! - [`Reader`] takes the lines of a text in order, by their form, and gives the [`Item`] of each.
//! - [`written_is_faithful`] and [`tables_fit`]: what is written says what the tree says, and is accepted where no leaf of the
//!   tree is open.
#![tactic(auto)]

mod cuts;
mod error;
mod laws;
mod leaf;
mod lines;
mod numbers;
mod output;
mod place;
mod preorder;
mod reader;
mod text;

pub use certline::Item;
pub use error::{LineError, WriteError};
pub use laws::{tables_fit, written_is_faithful};
pub use output::write;
pub use reader::Reader;
pub use text::body;
