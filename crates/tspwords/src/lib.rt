//! The words of a command line, read as commands.
//!
//! - [`read_command`] reads the words of the solver as a [`Command`].
//! - [`read_verify_words`] reads the words of the verifier, a program of its own, as [`VerifyWords`].
//! - [`plain_words_are_taken`], [`taken_words_are_given`]: laws of what words say.
//!
//! `specs/Program.antt` has the command lines as the parser of command lines is given them, and what is read from them.
#![tactic(auto)]

mod laws;
mod program;
mod reading;
mod words;

pub use laws::{plain_words_are_taken, taken_words_are_given};
pub use reading::{read_command, read_verify_words};
pub use words::{
    BenchWords, BoundWords, CheckboundWords, Command, ReplayWords, Solve, TourWords, VerifyWords,
    WordsError,
};
