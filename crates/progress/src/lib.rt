//! How far a search is, told on standard error while it works.
//!
//! - [`Progress`] is a gate: it is told how the search stands, and prints a line of it, at most one a second on a terminal and one each
//!   half minute elsewhere. It holds nobody up: no thread waits for it, and where it can't read the clock or print, it does without.
//! - [`How`] says where and when it prints; [`choose`] and [`is_asked`] choose that for a program.
//! - [`text`] is the line, of a [`Standing`].
#![tactic(auto)]

mod gate;
mod how;
mod line;

pub use gate::Progress;
pub use how::{How, choose, is_asked};
pub use line::{Standing, bound_of, text};
