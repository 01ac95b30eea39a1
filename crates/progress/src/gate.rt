//! The gate that tells how far a search is.
ghost use Rattle.std.specs.Prelude.{◌≡◌, ◌↔◌, ◌+◌, ◌≤◌, true};

use crate::how::How;
use crate::line::{Standing, bound_of, text};
use ports::{Gate, Point};
use std::alloc::Global;
use std::rt::Clock;
use std::sync::atomic::{AtomicU64, Ordering};
use std::time::Instant;

/// A gate that tells on standard error how the search stands.
#[derive(Drop)]
pub struct Progress<R: Clock + Eprint + Drop> {
    alloc: Global,
    rt: R,
    how: How,
    /// When the search began; `None` where the clock couldn't be read, and then nothing is told.
    start: Option<Instant>,
    /// After how many seconds the last line was printed, 0 before the first.
    last: AtomicU64,
}

impl<R: Clock + Eprint + Drop> Progress<R> {
    /// A gate of a search that begins now.
    pub fn new(alloc: Global, rt: R, how: How) -> Progress<R> {
        let start = Instant::now(&rt).ok();
        Progress {
            alloc,
            rt,
            how,
            start,
            last: AtomicU64::new(0),
        }
    }

    /// The seconds so far, and whether this line is the first, where it is this caller's turn to print one. Of callers at the same
    /// time one has it.
    fn turn(&self) -> Option<(u64, bool)> {
        let pause = self.how.seconds()?;
        let now = self.start?.elapsed(&self.rt).ok()?.as_secs();
        let last = self.last.load(Ordering::SeqCst);
        if !is_due(last, now, pause) {
            return None;
        }
        let taken = self
            .last
            .compare_exchange(last, now, Ordering::SeqCst, Ordering::SeqCst);
        if taken.is_ok() {
            Some((now, last == 0))
        } else {
            None
        }
    }

    /// Prints the line, in the place of the one before it or below it. What can't be printed is left out.
    fn print(&self, is_first: bool, standing: &Standing) {
        let Ok(line) = text(self.alloc, standing) else {
            return;
        };
        let _ = match self.how {
            How::InPlace if is_first => eprint!(self.rt; "\x1b[?7l{line}\x1b[?7h\n"),
            How::InPlace => eprint!(self.rt; "\x1b[A\r\x1b[K\x1b[?7l{line}\x1b[?7h\n"),
            _ => eprint!(self.rt; "{line}\n"),
        };
    }
}

impl<R: Clock + Eprint + Drop> Gate for Progress<R> {
    fn pass(&self, _grunt: u32, _lease: u32, _point: Point) {}

    fn stands(&self, best: u64, open: u32, settled: u32, least_key: Option<i64>) {
        if let Some((seconds, is_first)) = self.turn() {
            let bound = match least_key {
                Some(key) => Some(bound_of(best, key)),
                None => None,
            };
            let standing = Standing {
                seconds,
                settled: settled as u64,
                open: open as u64,
                best,
                bound,
            };
            self.print(is_first, &standing);
        }
    }
}

/// Whether a line is due now, where the last one was at `last` and a pause is between two.
fn is_due(last: u64, now: u64, pause: u64) -> bool
    ensures { result ≡ true ↔ last + pause ≤ now }
{
    match now.checked_sub(last) {
        Some(passed) => pause <= passed,
        None => false,
    }
}
