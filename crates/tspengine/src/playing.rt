//! A tape that is read in pieces, and played as it comes.
ghost use Rattle.std.specs.Prelude.{◌≡◌, ◌<◌, ◌≤◌, [], IfOk, length, Option};
ghost use Rattle.ports.specs.Outside.{BothTell, WhereTold, Cause};
ghost use Rattle.ports.specs.Desk.{Told, Takes, IsAtEnd};
ghost use Rattle.tspengine.specs.Playing.{IsFirstBook, IsPlayed, IsTurn, IsEndOf, IsPlayStatus, IsPlayTurn};

use crate::statuses::Status;
use bossx::Boss;
use opening::find_opening;
use ports::{Desk, Inlet, Outlet, write_all};
use std::alloc::{AllocError, Global};
use tapeboss::{Tape, TapeError};
use treebook::Tree;
use tspinst::Instance;

/// The most bytes of a tape that are read at a time.
const PIECE: usize = 1 << 16;

/// The seed of the opening tour, which is that of `solve` where none is given.
const SEED: u64 = 1;

/// What comes of a piece of a tape.
#[derive(Drop)]
enum Turn {
    /// The tape goes on.
    On(Tape),
    /// It ends, or nothing can go on.
    Ended(Status),
}

/// A boss before its first event: the tree is one open node, and the best tour is the opening tour of `solve`. No gap is left.
pub(crate) fn begin(
    alloc: Global,
    instance: &Instance,
    budget: u32,
    grunts: u32,
) -> Result<Boss, AllocError>
    requires few { budget ≤ 65536 }
    requires some_grunts { 1 ≤ grunts }
    requires few_grunts { grunts ≤ 64 }
    ensures { IfOk result (IsFirstBook instance.now budget grunts) }
{
    let opening = find_opening(alloc, instance, SEED)?;
    let tree = Tree::with_fixed(alloc, instance.n(), instance.fixed())?;
    Boss::start(alloc, instance, tree, opening.tour, budget, grunts, 0)
}

/// Plays the tape that the inlet of proofs is bound to, and prints the lines of each piece as it comes. O(1) for each byte, beside what
/// the boss does; beside the boss it holds one frame and one piece.
pub(crate) fn play<D: Desk>(alloc: Global, boss: Boss, desk: &mut D) -> Status
    ensures ends { BothTell (IsPlayed boss result) (D.told desk.old) (D.told desk.new) }
    ensures status { IsPlayStatus result }
    ensures reads { Cause (result ≡ Status.ReadFault) (D.read_faults desk.old) (D.read_faults desk.new) }
    ensures writes { Cause (result ≡ Status.WriteFault) (D.write_faults desk.old) (D.write_faults desk.new) }
{
    match vec![in alloc; 0u8; PIECE] {
        Ok(mut block) => play_pieces(alloc, boss, &mut block, desk),
        Err(_) => Status::NoMemory,
    }
}

/// Plays the tape piece by piece, over the room of one.
fn play_pieces<D: Desk>(alloc: Global, boss: Boss, block: &mut [u8], desk: &mut D) -> Status
    requires room { 0 < length block.old }
    ensures ends { BothTell (IsPlayed boss result) (D.told desk.old) (D.told desk.new) }
    ensures status { IsPlayStatus result }
    ensures reads { Cause (result ≡ Status.ReadFault) (D.read_faults desk.old) (D.read_faults desk.new) }
    ensures writes { Cause (result ≡ Status.WriteFault) (D.write_faults desk.old) (D.write_faults desk.new) }
{
    let mut tape = Tape::new(alloc, boss);
    'pieces: loop {
        match play_piece(alloc, tape, block, desk) {
            Turn::On(next) => tape = next,
            Turn::Ended(status) => return status,
        }
    }
}

/// Reads a piece of a tape and plays it, or ends the tape where nothing is left of it.
fn play_piece<D: Desk>(alloc: Global, tape: Tape, block: &mut [u8], desk: &mut D) -> Turn
    requires room { 0 < length block.old }
    ensures turn { IsTurn tape result (D.told desk.old) (D.told desk.new) }
    ensures status { IsPlayTurn result }
    ensures reads { Cause (result ≡ Turn.Ended Status.ReadFault) (D.read_faults desk.old) (D.read_faults desk.new) }
    ensures writes { Cause (result ≡ Turn.Ended Status.WriteFault) (D.write_faults desk.old) (D.write_faults desk.new) }
{
    match desk.read(Inlet::Proof, block) {
        Ok(0) => Turn::Ended(end(alloc, tape, desk)),
        Ok(count) => feed(alloc, tape, &block[..count], desk),
        Err(_) => Turn::Ended(Status::ReadFault),
    }
}

/// Plays a piece, and prints its lines.
fn feed<D: Desk>(alloc: Global, tape: Tape, piece: &[u8], desk: &mut D) -> Turn
    requires some { 0 < length piece.now }
    ensures turn { (before : Option Told) → BothTell (Takes Inlet.Proof piece.now) before (D.told desk.old) → IsTurn tape result before (D.told desk.new) }
    ensures status { IsPlayTurn result }
    ensures writes { Cause (result ≡ Turn.Ended Status.WriteFault) (D.write_faults desk.old) (D.write_faults desk.new) }
    ensures no_read { result ≡ Turn.Ended Status.ReadFault → ⊥ }
    ensures same { D.read_faults desk.new ≡ D.read_faults desk.old }
{
    let mut lines = Vec::new(alloc);
    match tape.feed(alloc, piece, &mut lines) {
        Ok(next) => match write_all(desk, Outlet::Text, &lines) {
            Ok(()) => Turn::On(next),
            Err(_) => Turn::Ended(Status::WriteFault),
        },
        Err(TapeError::Bad(_, _)) => match write_all(desk, Outlet::Text, &lines) {
            Ok(()) => Turn::Ended(Status::BadTape),
            Err(_) => Turn::Ended(Status::WriteFault),
        },
        Err(TapeError::NoMemory) => Turn::Ended(Status::NoMemory),
    }
}

/// Ends a tape of which nothing is left, and prints its last line.
fn end<D: Desk>(alloc: Global, tape: Tape, desk: &mut D) -> Status
    ensures ends { (before : Option Told) → BothTell (Takes Inlet.Proof []) before (D.told desk.old) → WhereTold (IsAtEnd Inlet.Proof) before
        → BothTell (IsEndOf tape result) before (D.told desk.new) }
    ensures status { IsPlayStatus result }
    ensures writes { Cause (result ≡ Status.WriteFault) (D.write_faults desk.old) (D.write_faults desk.new) }
    ensures no_read { result ≡ Status.ReadFault → ⊥ }
    ensures same { D.read_faults desk.new ≡ D.read_faults desk.old }
{
    let mut line = Vec::new(alloc);
    match tape.finish(alloc, &mut line) {
        Ok(()) => match write_all(desk, Outlet::Text, &line) {
            Ok(()) => Status::Replayed,
            Err(_) => Status::WriteFault,
        },
        Err(TapeError::Bad(_, _)) => match write_all(desk, Outlet::Text, &line) {
            Ok(()) => Status::BadTape,
            Err(_) => Status::WriteFault,
        },
        Err(TapeError::NoMemory) => Status::NoMemory,
    }
}
