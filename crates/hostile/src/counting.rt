//! A gate that counts what comes to the boss, and lets grunts overtake each other.
use crate::draws::{Count, Draws};
use ports::{Gate, Point};
use std::thread;

/// Counts the reports that came to the boss: after each the search is told how it stands. Of four grunts that pass, one lets others
/// go first.
#[derive(Drop)]
pub(crate) struct Counting {
    draws: Draws,
    came: Count,
}

impl Counting {
    pub(crate) fn new(seed: u64) -> Counting {
        Counting {
            draws: Draws::new(seed),
            came: Count::new(),
        }
    }

    /// How many reports came.
    pub(crate) fn came(&self) -> u64 {
        self.came.get()
    }
}

impl Gate for Counting {
    fn pass(&self, _grunt: u32, _lease: u32, _point: Point) {
        if self.draws.next() % 4 == 0 {
            thread::yield_now();
        }
    }

    fn stands(&self, _best: u64, _open: u32, _settled: u32, _least_key: Option<i64>) {
        self.came.raise();
    }
}
