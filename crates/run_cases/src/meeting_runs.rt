//! A run in which two grunts meet.
use crate::runs::{OPEN, ROOM, SQUARE, words};
use ports::{Gate, MemDesk, MemSlots, Point};
use std::sync::atomic::{AtomicU64, Ordering};
use std::test::Fail;
use std::thread;
use tspengine::{Status, run};

/// So often a grunt that waits for another looks for it.
const LOOKS: u32 = 10_000_000;

/// Holds the first grunt that is about to ask until another is.
#[derive(Drop)]
struct Meeting {
    first: AtomicU64,
    met: AtomicU64,
}

impl Gate for Meeting {
    fn pass(&self, grunt: u32, _lease: u32, point: Point) {
        if point != Point::BeforeAsk {
            return;
        }
        let me = u64::from(grunt);
        if self
            .first
            .compare_exchange(0, me, Ordering::SeqCst, Ordering::SeqCst)
            .is_ok()
        {
            self.look();
        } else if self.first.load(Ordering::SeqCst) != me {
            self.met.store(1, Ordering::SeqCst);
        }
    }
}

impl Meeting {
    /// Looks for another until it came or the looks ran out.
    fn look(&self) {
        for _ in 0..LOOKS {
            if self.met.load(Ordering::SeqCst) != 0 {
                return;
            }
            thread::yield_now();
        }
    }
}

#[test]
fn two_grunts_of_a_run_meet(rt: HostRuntime) -> Result<(), Fail> {
    let alloc = rt.alloc();
    let mut desk = MemDesk::new(
        alloc,
        SQUARE.as_bytes(),
        b"",
        4096,
        65_536,
        &[],
        &[],
        &[],
        ROOM,
    )?;
    let mut slots = MemSlots::new(alloc, b"", b"", &[], ROOM)?;
    let gate = Meeting {
        first: AtomicU64::new(0),
        met: AtomicU64::new(0),
    };
    let words = words(alloc, "tspc solve a b c --grunts 2")?;
    let status = run(&rt, alloc, &words, &mut desk, &mut slots, &OPEN, &gate);
    assert_eq!(rt; status, Status::Optimal);
    assert_eq!(rt; gate.met.load(Ordering::SeqCst), 1);
    Ok(())
}
