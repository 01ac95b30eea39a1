//! The engine: a command line, a desk and slots in, an answer out.
//!
//! `specs/Headline.antt` says what holds where it answers Optimal, Within, Stopped, Toured, Benched or BenchStopped, a record each, and
//! `specs/Bounds.antt` where it answers Bounded, Checked or BoundRefused; where it answers Verified or Refused, that of `verification` does.
//!
//! - [`run`] reads the words, does what they say, and ends with a [`Status`]. `specs/Runs.antt` is its contract, a line a command.
#![tactic(auto)]

mod benching;
mod bound_texts;
mod bounding;
mod checkbounding;
mod crew;
mod outcomes;
mod playing;
mod publishing;
mod replaying;
mod running;
mod searching;
mod solving;
mod starting;
mod statuses;
mod texts;
mod touring;
mod usage;
mod verifying;

pub use running::run;
pub use statuses::Status;
