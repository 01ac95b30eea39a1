//! Drawn numbers, from any thread.
use std::sync::atomic::{AtomicU64, Ordering};

/// What a number draws, below 2^31.
pub(crate) fn mixed(number: u64) -> u64 {
    let spread = number.wrapping_mul(0x9e37_79b9_7f4a_7c15);
    let once = (spread ^ (spread >> 30)).wrapping_mul(0xbf58_476d_1ce4_e5b9);
    let twice = (once ^ (once >> 27)).wrapping_mul(0x94d0_49bb_1331_11eb);
    (twice ^ (twice >> 31)) >> 33
}

/// Draws that threads share.
#[derive(Drop)]
pub(crate) struct Draws {
    state: AtomicU64,
}

impl Draws {
    pub(crate) fn new(seed: u64) -> Draws {
        Draws {
            state: AtomicU64::new(mixed(seed) << 32),
        }
    }

    /// The next draw, below 2^31.
    pub(crate) fn next(&self) -> u64 {
        mixed(self.state.fetch_add(1, Ordering::SeqCst))
    }
}

/// A count that threads share.
#[derive(Drop)]
pub(crate) struct Count {
    number: AtomicU64,
}

impl Count {
    pub(crate) fn new() -> Count {
        Count {
            number: AtomicU64::new(0),
        }
    }

    pub(crate) fn raise(&self) {
        self.number.fetch_add(1, Ordering::SeqCst);
    }

    pub(crate) fn get(&self) -> u64 {
        self.number.load(Ordering::SeqCst)
    }
}
