//! Refusals in words: what the numbers of a printed line mean, and what to do.
//!
//! - [`KeepingDesk`] is a desk around another: it passes each call on, and keeps a front of the last line that was printed.
//!   That it is that is the law [`kept_is_the_last_line`].
//! - [`explain`] says that line in words, where it is a refusal of its [`Subject`], or what the exit status tells of a fault outside.
//! - [`tell`] prints that on standard error, where it is a terminal.
//! - [`TABLES`] has the words of all programs, in `src/table.rt` alone. The man pages and docs/FORMATS.md have the same ones, and
//!   `bench/words.py` compares them.
#![tactic(auto)]

mod desk;
mod explaining;
mod last_line;
mod laws;
mod rows;
mod table;
mod telling;

pub use desk::KeepingDesk;
pub use explaining::{Subject, explain};
pub use laws::kept_is_the_last_line;
pub use rows::{Row, StatusRow, Tables};
pub use table::TABLES;
pub use telling::tell;
