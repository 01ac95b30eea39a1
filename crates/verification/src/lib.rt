//! The verifier: a command line and a desk in, an answer out. It stands on the check of proof texts, and has no part of a search.
//!
//! What its answers say stands in `specs/Headline.antt`: `Verified`, `Refused`, `BadInstance` and `Usage`.
//!
//! - [`run_verify`] reads the words of the program of its own, does what they say, and ends with a [`VerifyStatus`].
//! - [`verify`] is the same for words that are read, which other programs share.
//! - [`read_instance`], [`refuse`]: the first steps of whatever reads an instance.
//! - [`command_words`]: the words of a program's command line.
#![tactic(auto)]

mod arguments;
mod judging;
mod reading;
mod running;
mod statuses;
mod texts;

pub use arguments::command_words;
pub use reading::{Reading, Unread, read_instance, refuse};
pub use running::{run_verify, verify};
pub use statuses::VerifyStatus;
