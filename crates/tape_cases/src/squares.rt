//! Tapes for a boss over the square, and what they are answered.
use bossx::Boss;
use cyc::Tour;
use distx::{Kind, Point};
use std::alloc::Global;
use std::test::Fail;
use tapeboss::{Fault, Tape, TapeError};
use treebook::Tree;
use tspinst::{Instance, from_points};

/// What a tape is answered.
#[derive(Drop)]
pub(crate) struct Told {
    pub lines: Vec<u8>,
    pub fault: Option<(Fault, u64)>,
}

/// The lines as a text.
pub(crate) fn text(told: &Told) -> &str {
    match std::str::from_utf8(&told.lines) {
        Ok(text) => text,
        Err(_) => "",
    }
}

fn square(alloc: Global) -> Result<Instance, Fail> {
    let corners = [
        Point::new(0, 0),
        Point::new(0, 10),
        Point::new(10, 10),
        Point::new(10, 0),
    ];
    Ok(from_points(alloc, Kind::Euc, &corners)?)
}

/// A tape for a boss over the tree of one open node.
pub(crate) fn tape_for(
    alloc: Global,
    instance: &Instance,
    best: Tour,
    budget: u32,
    grunts: u32,
) -> Result<Tape, Fail> {
    if budget > 500_000 || grunts < 1 || grunts > 64 {
        return Err("too many".into());
    }
    if best.n() != instance.n() || !instance.fixed().is_empty() {
        return Err("no tour of the instance".into());
    }
    let tree = Tree::with_fixed(alloc, instance.n(), instance.fixed())?;
    let boss = Boss::start(alloc, instance, tree, best, budget, grunts, 0)?;
    Ok(Tape::new(alloc, boss))
}

/// A tape for the square with its shortest tour, a budget and two grunts.
fn square_tape(alloc: Global, budget: u32) -> Result<Tape, Fail> {
    let instance = square(alloc)?;
    let best = Tour::identity(alloc, 4)?;
    tape_for(alloc, &instance, best, budget, 2)
}

/// What is told at the end.
fn fault_of(ending: Result<(), TapeError>) -> Result<Option<(Fault, u64)>, Fail> {
    match ending {
        Ok(()) => Ok(None),
        Err(TapeError::Bad(fault, frame)) => Ok(Some((fault, frame))),
        Err(TapeError::NoMemory) => Err("no memory".into()),
    }
}

/// Feeds a tape, and ends it.
fn play(alloc: Global, tape: Tape, bytes: &[u8], out: &mut Vec<u8>) -> Result<(), TapeError> {
    tape.feed(alloc, bytes, out)?.finish(alloc, out)
}

/// The same in pieces of one byte.
fn play_by_bytes(
    alloc: Global,
    tape: Tape,
    bytes: &[u8],
    out: &mut Vec<u8>,
) -> Result<(), TapeError> {
    let mut tape = tape;
    for byte in bytes {
        tape = tape.feed(alloc, &[*byte], out)?;
    }
    tape.finish(alloc, out)
}

/// What the square's boss answers to a tape, within a budget.
pub(crate) fn answers_within(alloc: Global, budget: u32, bytes: &[u8]) -> Result<Told, Fail> {
    let mut lines = Vec::new(alloc);
    let fault = fault_of(play(alloc, square_tape(alloc, budget)?, bytes, &mut lines))?;
    Ok(Told { lines, fault })
}

/// The same, byte by byte.
pub(crate) fn answers_by_bytes_within(
    alloc: Global,
    budget: u32,
    bytes: &[u8],
) -> Result<Told, Fail> {
    let mut lines = Vec::new(alloc);
    let tape = square_tape(alloc, budget)?;
    let fault = fault_of(play_by_bytes(alloc, tape, bytes, &mut lines))?;
    Ok(Told { lines, fault })
}

/// What is answered within a budget of 1.
pub(crate) fn answers(alloc: Global, bytes: &[u8]) -> Result<Told, Fail> {
    answers_within(alloc, 1, bytes)
}

/// The same, byte by byte.
pub(crate) fn answers_by_bytes(alloc: Global, bytes: &[u8]) -> Result<Told, Fail> {
    answers_by_bytes_within(alloc, 1, bytes)
}

/// A tape of one frame: a kind with its number, if any, and a text.
pub(crate) fn framed(alloc: Global, head: &[u8], text: &str) -> Result<Vec<u8>, Fail> {
    let mut tape = Vec::new(alloc);
    let size = (head.len().saturating_add(text.len()) & 0xffff_ffff) as u32;
    tape.extend_from_slice(&size.to_be_bytes())?;
    tape.extend_from_slice(head)?;
    tape.extend_from_slice(text.as_bytes())?;
    Ok(tape)
}
