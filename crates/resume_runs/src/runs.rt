//! Whole runs over a desk and slots in memory.
ghost use Rattle.std.specs.Prelude.{◌<◌};

use ports::{MemDesk, MemSlots, OpenGate, PlainPosts, Room, SlotCall};
use std::alloc::{AllocError, Global};
use std::sync::Wait;
use std::thread::Threads;
use tspengine::{Status, run};

pub(crate) const SQUARE: &str =
    "NAME : square\nTYPE : TSP\nDIMENSION : 4\nEDGE_WEIGHT_TYPE : EUC_2D\nNODE_COORD_SECTION\n1 0 0\n2 0 10\n3 10 10\n4 10 0\nEOF\n";

/// Its cities in their order cross, and make a tour of length 48.
pub(crate) const CROSSED: &str =
    "TYPE : TSP\nDIMENSION : 4\nEDGE_WEIGHT_TYPE : EUC_2D\nNODE_COORD_SECTION\n1 0 0\n2 10 10\n3 0 10\n4 10 0\n";

pub(crate) const ROOM: Room = Room {
    bytes: 1 << 20,
    paths: 64,
    calls: 100_000,
};

/// Posts that lose, repeat and delay nothing.
pub(crate) const OPEN: PlainPosts = PlainPosts {
    lose: 0,
    twice: false,
    late: false,
};

/// What is to fail.
#[derive(Clone, Copy, Drop)]
pub(crate) struct Faults<'a> {
    pub(crate) most_write: usize,
    pub(crate) bad_binds: &'a [u64],
    pub(crate) bad_reads: &'a [u64],
    pub(crate) bad_writes: &'a [u64],
    pub(crate) bad_slots: &'a [(SlotCall, u64)],
}

pub(crate) const NONE: Faults<'static> = Faults {
    most_write: 65_536,
    bad_binds: &[],
    bad_reads: &[],
    bad_writes: &[],
    bad_slots: &[],
};

/// A run that has ended.
#[derive(Drop)]
pub(crate) struct Ended {
    pub(crate) status: Status,
    pub(crate) desk: MemDesk,
    pub(crate) slots: MemSlots,
}

impl Ended {
    pub(crate) fn text(&self) -> &[u8] {
        self.desk.text()
    }
}

pub(crate) fn words(alloc: Global, line: &str) -> Result<Vec<String>, AllocError> {
    let mut words = Vec::new(alloc);
    for word in line.split(' ') {
        words.push(format!(in alloc; "{word}")?)?;
    }
    Ok(words)
}

/// Runs the words of a line on an instance's text.
pub(crate) fn run_with<R: Threads + Wait + Sync>(
    rt: &R,
    alloc: Global,
    line: &str,
    text: &str,
    faults: &Faults<'_>,
) -> Result<Ended, AllocError>
    requires { 0 < faults.now.most_write }
{
    let mut desk = MemDesk::new(
        alloc,
        text.as_bytes(),
        b"",
        4096,
        faults.most_write,
        faults.bad_binds,
        faults.bad_reads,
        faults.bad_writes,
        ROOM,
    )?;
    let mut slots = MemSlots::new(alloc, b"", b"", faults.bad_slots, ROOM)?;
    let status = run(
        rt,
        alloc,
        &words(alloc, line)?,
        &mut desk,
        &mut slots,
        &OPEN,
        &OpenGate,
    );
    Ok(Ended {
        status,
        desk,
        slots,
    })
}

pub(crate) fn solved<R: Threads + Wait + Sync>(
    rt: &R,
    alloc: Global,
    line: &str,
    text: &str,
) -> Result<Ended, AllocError> {
    run_with(rt, alloc, line, text, &NONE)
}

/// Verifies the bytes of a proof, beside slots that hold something.
pub(crate) fn verified<R: Threads + Wait + Sync>(
    rt: &R,
    alloc: Global,
    text: &str,
    proof: &[u8],
) -> Result<Ended, AllocError> {
    let mut desk = MemDesk::new(
        alloc,
        text.as_bytes(),
        proof,
        4096,
        65_536,
        &[],
        &[],
        &[],
        ROOM,
    )?;
    let mut slots = MemSlots::new(alloc, b"old", b"new", &[], ROOM)?;
    let words = words(alloc, "tspc verify a b")?;
    let status = run(rt, alloc, &words, &mut desk, &mut slots, &OPEN, &OpenGate);
    Ok(Ended {
        status,
        desk,
        slots,
    })
}
