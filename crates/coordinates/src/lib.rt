//! Where the cities of an instance stand: the instance is read from the bytes of a text by `tspinst`, and its points from the same bytes.
//!
//! - [`read`] gives a [`Mapped`] instance, or the first refusal of its text.
//!
//! The points are looked for again, by words and lines, and are believed only where they give the very distances of the instance that
//! `tspinst` read. An instance with explicit weights has none.
#![tactic(auto)]

mod bytes;
mod points;
mod reading;

pub use reading::{Mapped, ReadError, read};
