//! A tape that is fed in pieces.
ghost use Rattle.std.specs.Prelude.{◌≡◌, ℕ, ◌+◌, ◌<◌, ◌≤◌, ◌^◌, true, false, [], ◌++◌, length, None, Some, Err, IfOk, OnOk};
ghost use Rattle.tapeboss.specs.Frames.{IsBegun, number_of};
ghost use Rattle.tapeboss.specs.Replies.{fault_line};
ghost use Rattle.tapeboss.specs.Tapes.{HasPlayed, GoesOn, StopsAt, EndsAs, Puts};
ghost use Rattle.tapeboss.specs.Turns.{IsRoom, IsLongEnough, IsAnswered, IsToldAs, IsToldFault};
ghost use Rattle.tapeboss.specs.declared.error.Fault.{Fault};

use crate::error::{Fault, FrameError, TapeError};
use crate::frames::hear;
use crate::replies;
use crate::replies::{end_line, reply_line};
use crate::words::first_word;
use bossx::Boss;
use std::alloc::{AllocError, Global};
use std::marker::Model;

/// The most bytes of a tape.
const MOST: u64 = 1 << 60;

/// The most bytes of a frame behind its length.
const LONGEST: usize = 1 << 24;

/// The bytes of a frame's length.
const HEADER: usize = 4;

/// A boss that plays a tape, which is fed to it in pieces of any sizes. To each frame it answers a line, once the frame is whole.
///
/// Contracts see how many frames were answered, how many bytes came, the frame that is begun, and the boss's book. A fault uses the tape up,
/// and so does want of memory. Beside the boss it holds one frame.
#[derive(Drop)]
pub struct Tape {
    boss: Boss,
    begun: Vec<u8>,
    frames: u64,
    read: u64,
}

impl Model for Tape {
    ghost use Rattle.std.specs.Prelude.{◌+◌, ◌≤◌, ◌^◌, length};
    ghost use Rattle.tapeboss.specs.Tapes.{Playing};
    ghost use Rattle.tapeboss.specs.Frames.{IsBegun};

    ghost Value = { Playing };

    ghost view = { λ t. record { frames = t.frames; read = t.read; begun = t.begun.items; book = t.boss } };

    ghost invariant = { λ t. IsBegun t.begun.items × (t.read ≤ 2 ^ 60) × (t.frames + length t.begun.items ≤ t.read) };
}

impl Tape {
    /// A tape before its first byte, for a boss. Its grunts are those of the tape.
    pub fn new(alloc: Global, boss: Boss) -> Tape
        ensures book { result.book ≡ boss }
        ensures nothing { HasPlayed boss [] [] result }
    {
        Tape {
            boss,
            begun: Vec::new(alloc),
            frames: 0,
            read: 0,
        }
    }

    /// Takes the next piece of the tape, and puts the lines of the frames that it ends. At a fault the lines end with that of the fault.
    /// O(1) for each byte, beside what the boss does.
    pub fn feed(self, alloc: Global, piece: &[u8], out: &mut Vec<u8>) -> Result<Tape, TapeError>
        ensures played { IfOk result (λ t. Puts out.old.items out.new.items (λ lines. GoesOn self piece.now lines t)) }
        ensures bad { (f : Fault) (k : ℕ) → result ≡ Err (TapeError.Bad f k) → Puts out.old.items out.new.items (λ lines. StopsAt self piece.now lines f k) }
    {
        let mut tape = self;
        let mut rest = piece;
        while !rest.is_empty() {
            let count = tape.wanted(rest.len());
            if count == 0 {
                return Err(stop(alloc, Fault::TooLong, tape.frames + 1, out));
            }
            let (part, more) = rest.split_at(count);
            match tape.go_on(alloc, part, out) {
                Ok(next) => tape = next,
                Err(error) => return Err(error),
            }
            rest = more;
        }
        Ok(tape)
    }

    /// Ends the tape: nothing comes behind the bytes that were fed. Puts the last line.
    pub fn finish(self, alloc: Global, out: &mut Vec<u8>) -> Result<(), TapeError>
        ensures ended { OnOk result (Puts out.old.items out.new.items (λ lines. EndsAs self lines None)) }
        ensures bad { (f : Fault) (k : ℕ) → result ≡ Err (TapeError.Bad f k) → Puts out.old.items out.new.items (λ lines. EndsAs self lines (Some (f, k))) }
    {
        if !self.begun.is_empty() {
            return Err(stop(alloc, Fault::Truncated, self.frames + 1, out));
        }
        let (_, tree) = self.boss.snapshot();
        let line = end_line(
            alloc,
            self.boss.settled(),
            tree.open_nodes(),
            self.boss.best_length(),
        )?;
        out.extend_from_slice(&line)?;
        Ok(())
    }

    /// How many of so many bytes are taken at once: no more than end the length of a frame, or the frame, or the most of a tape.
    fn wanted(&self, most: usize) -> usize
        ensures within { result ≤ most }
        ensures room { self.now.read + result ≤ 2 ^ 60 }
        ensures part { IsRoom self.now.begun result }
        ensures none { result ≡ 0 → 0 < most → self.now.read ≡ 2 ^ 60 }
    {
        let begun = self.begun.len();
        let whole = if begun < HEADER {
            HEADER
        } else {
            HEADER + first_word(&self.begun) as usize
        };
        let few = most.min(whole - begun);
        let left = MOST - self.read;
        if left < few as u64 {
            left as usize
        } else {
            few
        }
    }

    /// Takes some bytes more, which end the length of a frame or a frame at most.
    fn go_on(self, alloc: Global, part: &[u8], out: &mut Vec<u8>) -> Result<Tape, TapeError>
        requires some { 0 < length part.now }
        requires room { self.read + length part.now ≤ 2 ^ 60 }
        requires part { IsRoom self.begun (length part.now) }
        ensures played { IfOk result (λ t. Puts out.old.items out.new.items (λ lines. GoesOn self part.now lines t)) }
        ensures bad { (f : Fault) (k : ℕ) → result ≡ Err (TapeError.Bad f k) → Puts out.old.items out.new.items (λ lines. StopsAt self part.now lines f k) }
    {
        let Tape {
            mut boss,
            mut begun,
            frames,
            read,
        } = self;
        begun.extend_from_slice(part)?;
        let read = read + part.len() as u64;
        let whole = match turn(alloc, &mut boss, &begun, frames + 1, out) {
            Ok(whole) => whole,
            Err(error) => return Err(error),
        };
        if whole {
            begun.clear();
            return Ok(Tape {
                boss,
                begun,
                frames: frames + 1,
                read,
            });
        }
        Ok(Tape {
            boss,
            begun,
            frames,
            read,
        })
    }
}

/// Looks at a frame that is begun: at its length, and, where it is whole, plays it. Whether it was played.
fn turn(
    alloc: Global,
    boss: &mut Boss,
    begun: &[u8],
    frame: u64,
    out: &mut Vec<u8>,
) -> Result<bool, TapeError>
    requires { length begun.now < 2 ^ 32 }
    ensures part { IfOk result (λ b. b ≡ false → IsBegun begun.now × (boss.new ≡ boss.old) × (out.new.items ≡ out.old.items)) }
    ensures whole { IfOk result (λ b. b ≡ true → IsLongEnough begun.now × Puts out.old.items out.new.items (λ lines. IsAnswered boss.old begun.now lines boss.new)) }
    ensures bad { (f : Fault) (k : ℕ) → result ≡ Err (TapeError.Bad f k) → IsToldFault boss.old begun.now frame out.old.items out.new.items f k }
{
    if begun.len() < HEADER {
        return Ok(false);
    }
    let size = first_word(begun) as usize;
    if size < 1 || size > LONGEST {
        return Err(stop(alloc, Fault::BadLength, frame, out));
    }
    if begun.len() < HEADER + size {
        return Ok(false);
    }
    match play(alloc, boss, begun, frame, out) {
        Ok(()) => Ok(true),
        Err(error) => Err(error),
    }
}

/// Plays a frame that is whole.
fn play(
    alloc: Global,
    boss: &mut Boss,
    bytes: &[u8],
    frame: u64,
    out: &mut Vec<u8>,
) -> Result<(), TapeError>
    requires { 4 ≤ length bytes.now }
    ensures answered { OnOk result (Puts out.old.items out.new.items (λ lines. IsAnswered boss.old bytes.now lines boss.new)) }
    ensures bad { (f : Fault) (k : ℕ) → result ≡ Err (TapeError.Bad f k) → IsToldAs boss.old bytes.now frame out.old.items out.new.items f k }
{
    let n = boss.instance().n();
    let (_, body) = bytes.split_at(HEADER);
    match hear(alloc, n, boss.grunts(), body) {
        Ok(event) => {
            let reply = boss.act(event);
            let line = reply_line(alloc, reply)?;
            out.extend_from_slice(&line)?;
            Ok(())
        }
        Err(FrameError::Bad(fault)) => Err(stop(alloc, fault, frame, out)),
        Err(FrameError::NoMemory) => Err(TapeError::NoMemory),
    }
}

/// Puts the line of a fault, with its frame.
fn stop(alloc: Global, fault: Fault, frame: u64, out: &mut Vec<u8>) -> TapeError
    ensures { (f : Fault) (k : ℕ) → result ≡ TapeError.Bad f k → (f ≡ fault) × (k ≡ frame) × (out.new.items ≡ out.old.items ++ fault_line (number_of fault) frame) }
{
    match put_fault(alloc, fault, frame, out) {
        Ok(()) => TapeError::Bad(fault, frame),
        Err(AllocError) => TapeError::NoMemory,
    }
}

fn put_fault(alloc: Global, fault: Fault, frame: u64, out: &mut Vec<u8>) -> Result<(), AllocError>
    ensures { OnOk result (out.new.items ≡ out.old.items ++ fault_line (number_of fault) frame) }
{
    let line = replies::fault_line(alloc, fault.number(), frame)?;
    out.extend_from_slice(&line)
}
