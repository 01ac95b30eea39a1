//! Lines of proof texts, read without a look at what surrounds them.
//!
//! - [`Item`] is what a line says.
//! - [`read_line`] gives the item of a line's bytes, exactly where they are a line of the form.
#![tactic(auto)]

mod digits;
mod item;
mod keyword;
mod lists;
mod shapes;

pub use item::{Item, read_line};
