//! Instances of the symmetric travelling salesman problem, and the texts that they are read from (TSPLIB 95).
//!
//! - [`Instance`] is a number of cities and the table of their distances.
//! - [`from_points`] makes one of points.
//! - [`read`] reads one from a desk, or tells the first refusal of its text as a [`ReadError`].
//! - [`texts_are_judged`], [`plain_texts_are_read`], [`headers_are_lines`], [`all_lines_are_read`], [`cycles_are_told`]: laws of the
//!   definition that `read` is proved against, which stands in `specs/Texts.antt`.
#![tactic(auto)]

mod edges;
mod fixing;
mod header;
mod keywords;
mod laws;
mod points;
mod reading;
mod refusals;
mod square;
mod table;
mod text;
mod weights;
mod words;

pub use laws::{
    all_lines_are_read, cycles_are_told, headers_are_lines, plain_texts_are_read, texts_are_judged,
};
pub use refusals::{FixError, PairFault, Part, ReadError, Refusal};
pub use square::from_points;
pub use table::Instance;
pub use text::read;
