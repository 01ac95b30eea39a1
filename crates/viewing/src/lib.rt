//! The viewer: a command line and a desk in, the picture of a tour out. It reads an instance and a text by the readers of the verifier
//! and of a search that goes on, and believes nothing of the text that these do not show.
//!
//! What its answers say stands in `specs/Headline.antt`: `Drawn`, `Refused`, `BadInstance` and `Usage`.
//!
//! - [`run_view`] reads the words of the program, does what they say, and ends with a [`ViewStatus`].
#![tactic(auto)]

mod arguments;
mod picturing;
mod reading;
mod running;
mod saying;
mod showing;
mod statuses;
mod texts;

pub use running::run_view;
pub use statuses::ViewStatus;
