//! The lines, words and numbers of TSPLIB texts, exactly as they are spelt.
//!
//! A text is bytes. Its lines end at LF, and words stand between blanks (space, tab, CR) and ends of lines.
//!
//! - [`Lexer`] goes through a text by words (`token`, `word`) and by lines (`line`), and counts lines from 1.
//! - [`whole`] gives the exact value of a number token, however long and however spelt, or its [`NumberFault`].
//! - [`natural`] gives the value of digits that stand alone.
//! - [`plain_numbers_are_read`] is the law that a whole number is read from its decimal digits.
//!
//! Nothing here takes memory.
#![tactic(auto)]

mod digits;
mod front;
mod number;
mod text;

pub use number::{NumberFault, natural, plain_numbers_are_read, whole};
pub use text::Lexer;
