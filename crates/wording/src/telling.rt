//! What a user is told at the end of a run.

use crate::explaining::{Subject, explain};
use crate::table::TABLES;
use std::alloc::Global;

/// Says on standard error, where that is a terminal, what a run's end means, as [`explain`] does. What can't be said is left out: the
/// answer of the run was printed, and its status stands.
pub fn tell<R: Eprint>(
    rt: &R,
    alloc: Global,
    is_terminal: bool,
    status: u8,
    subject: Subject,
    line: &[u8],
) {
    if !is_terminal {
        return;
    }
    if let Ok(Some(words)) = explain(alloc, &TABLES, status, subject, line) {
        let _ = eprintln!(rt; "{words}");
    }
}
