//! A verifier that is fed a text in pieces.
ghost use Rattle.std.specs.Prelude.{◌≡◌, ℕ, ◌+◌, ◌^◌, ◌<◌, ◌≤◌, List, [], ◌++◌, IfOk, IfErr};
ghost use Rattle.certdef.specs.Bytes.{start, verdict};
ghost use Rattle.certcheck.specs.Answers.{verdict_of};
ghost use Rattle.certcheck.specs.Checkers.{HasRead, IsRefusalOf, sizes_of};

use crate::answer::{Answer, Trouble};
use crate::purpose::Purpose;
use crate::reading::Reading;
use crate::sizes::Sizes;
use std::alloc::Global;
use std::marker::Model;
use tspinst::Instance;

/// A verifier of proofs about one instance, which is fed a text in pieces of any sizes and answers as `check` does.
///
/// Contracts see the instance and where the reading of the text stands. A piece that is refused uses the checker up, and so does
/// want of memory. Memory is bounded by the path, the cuts, one leaf and one line, as `sizes` counts them, and a table of a byte for
/// each two of the cities.
#[derive(Drop)]
pub struct Checker<'a> {
    instance: &'a Instance,
    reading: Reading,
}

impl<'a> Model for Checker<'a> {
    ghost use Rattle.std.specs.Prelude.{◌≡◌, ◌≤◌, length};
    ghost use Rattle.certcheck.specs.Checkers.{Checking};
    ghost use Rattle.certcheck.specs.Readings.{reading_of};
    ghost use Rattle.certcheck.specs.Stages.{Stands};
    ghost use Rattle.certcheck.specs.declared.purpose.Purpose.TheVariants as purposes;

    ghost Value = { Checking };

    ghost view = { λ c. record { instance = c.instance.now; reading = reading_of c.reading } };

    ghost invariant = { λ c. Stands c.instance.now.n c.reading.progress × (length c.reading.begun.items ≤ 16384) × (c.reading.progress.purpose ≡ purposes.Verify) };
}

impl<'a> Checker<'a> {
    /// A checker of proofs about this instance, before the first byte.
    pub fn new(alloc: Global, instance: &'a Instance) -> Checker<'a>
        ensures instance { result.instance ≡ instance.now }
        ensures nothing { HasRead result [] }
    {
        Checker {
            instance,
            reading: Reading::new(alloc, instance.n(), Purpose::Verify),
        }
    }

    /// Takes the next piece of the text. O(1) for each of its bytes, beside what the lines cost.
    ///
    /// A refusal is that of each text that begins with the bytes so far.
    pub fn feed(self, alloc: Global, piece: &[u8]) -> Result<Checker<'a>, Trouble>
        ensures instance { IfOk result (λ c. c.instance ≡ self.entry.instance) }
        ensures fed { IfOk result (λ c. (fed : List ℕ) → HasRead self.entry fed → HasRead c (fed ++ piece.now)) }
        ensures refused { IfErr result (λ e. (fed more : List ℕ) → HasRead self.entry fed → IsRefusalOf self.entry.instance e ((fed ++ piece.now) ++ more)) }
    {
        let Checker {
            instance,
            mut reading,
        } = self;
        reading.feed(alloc, instance, piece)?;
        Ok(Checker { instance, reading })
    }

    /// The verdict on the bytes that were fed, if nothing comes behind them.
    pub fn finish(self) -> Answer
        ensures { (fed : List ℕ) → HasRead self.entry fed → verdict_of result ≡ verdict self.entry.instance fed }
    {
        self.reading.finish()
    }
    /// How much the checker holds. O(depth + fixed pairs).
    pub fn sizes(&self) -> Sizes
        ensures sizes { result ≡ sizes_of self.now.reading }
        ensures line { result.line ≤ 16384 }
    {
        self.reading.sizes()
    }

    /// How many of so many bytes may be asked for: as many as there may be, and one that shows that there are too many.
    pub(crate) fn wanted(&self, room: usize) -> usize
        ensures some { 0 < room → 0 < result }
        ensures fits { result ≤ room }
        ensures few { self.now.reading.read + result ≤ 2 ^ 60 + 1 }
    {
        self.reading.wanted(room)
    }
}
