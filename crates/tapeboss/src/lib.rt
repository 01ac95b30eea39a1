//! Tapes of events, played by a boss: the tape is bytes of anyone, and comes in pieces.
//!
//! A tape is a list of frames: a big-endian length of four bytes, and that many bytes, of which the first is the kind of an event.
//! To each event a line is answered, and at the end a line of the boss's counts, or of the first fault of the tape.
//!
//! - [`Tape`] is a boss that plays a tape: [`Tape::new`], [`Tape::feed`], [`Tape::finish`].
//! - [`TapeError`] is why it ends early, with the [`Fault`] and the number of the frame.
#![tactic(auto)]

mod closings;
mod content;
mod cuts;
mod error;
mod frames;
mod lines;
mod replies;
mod reports;
mod tape;
mod tours;
mod words;

pub use error::{Fault, TapeError};
pub use tape::Tape;
