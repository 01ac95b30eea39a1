//! A text that comes in pieces.
ghost use Rattle.std.specs.Prelude.{◌≡◌, ℕ, ◌<◌, ◌≤◌, ◌+◌, ◌^◌, ◌∷◌, [], ◌++◌, true, OnOk};
ghost use Rattle.certdef.specs.Items.{item_of};
ghost use Rattle.certdef.specs.Verdicts as spec;
ghost use Rattle.certdef.specs.Bytes.{start, reads, line_on, byte_on, bytes_on, end_of};
ghost use Rattle.certcheck.specs.Answers.{verdict_of};
ghost use Rattle.verdict.specs.Parts.{line_says, byte_says, bytes_say};
ghost use Rattle.certcheck.specs.Keeping.{Keeps};
ghost use Rattle.certcheck.specs.Purposes.{tests_by};
ghost use Rattle.certcheck.specs.Stages.{stage_of, Stands};
ghost use Rattle.certcheck.specs.Readings.{reading_of, Reads, SaysMore, HasNoLineEnd, HasRoom};
ghost use Rattle.certcheck.specs.Checkers.{sizes_of};

use crate::answer::{Answer, Trouble};
use crate::count::Count;
use crate::part::Parts;
use crate::progress::{Progress, Stage};
use crate::purpose::Purpose;
use crate::sizes::Sizes;
use memchr::memchr;
use std::alloc::Global;
use tspinst::Instance;

/// The most bytes of a text that may be accepted.
const MOST: u64 = 1 << 60;

/// The most bytes of a line, its line end left out.
const LONGEST: usize = 16384;

/// How far a text has been read, and the bytes of the line that is begun.
#[derive(Drop)]
pub(crate) struct Reading {
    count: Count,
    progress: Progress,
    begun: Vec<u8>,
    pub(crate) parts: Parts,
}

impl Reading {
    /// Before the first byte of a text for n cities.
    pub(crate) fn new(alloc: Global, n: u32, purpose: Purpose) -> Reading
        ensures purpose { result.progress.purpose ≡ purpose }
        ensures start { reading_of result ≡ start }
        ensures stands { Stands n result.progress }
        ensures nothing { Keeps result.parts [] }
    {
        Reading {
            count: Count::new(),
            progress: Progress::new(alloc, n, purpose),
            begun: Vec::new(alloc),
            parts: Parts::new(alloc),
        }
    }

    /// Takes the end of the line that is begun.
    fn end_line(&mut self, alloc: Global, instance: &Instance) -> Result<(), Trouble>
        requires few { self.old.count.read < 2 ^ 60 }
        requires stands { Stands instance.now.n self.old.progress }
        ensures reads { Reads instance.now.n result self.new (line_on self.old.count.at self.old.count.read (spec.line_step (tests_by self.old.progress.purpose instance.now) self.old.count.at (stage_of self.old.progress) (item_of instance.now.n self.old.begun.items))) }
        ensures same { self.new.progress.purpose ≡ self.old.progress.purpose }
        ensures says { OnOk result (SaysMore self.old self.new (line_says instance.now.n (stage_of self.old.progress) (item_of instance.now.n self.old.begun.items))) }
    {
        let part = self
            .progress
            .line(alloc, instance, self.count.at(), &self.begun)?;
        self.parts.put(self.progress.purpose, part)?;
        self.count = self.count.with_line_end();
        self.begun.clear();
        Ok(())
    }

    /// Takes a byte.
    fn byte(&mut self, alloc: Global, instance: &Instance, byte: u8) -> Result<(), Trouble>
        requires { Stands instance.now.n self.old.progress }
        ensures reads { Reads instance.now.n result self.new (byte_on (tests_by self.old.progress.purpose instance.now) (reading_of self.old) byte) }
        ensures same { self.new.progress.purpose ≡ self.old.progress.purpose }
        ensures says { OnOk result (SaysMore self.old self.new (byte_says instance.now.n (reading_of self.old) byte)) }
    {
        if self.count.read() >= MOST {
            return Err(Trouble::Refused(10, self.count.at()));
        }
        if let Stage::End = self.progress.stage {
            return Err(Trouble::Refused(9, self.count.at()));
        }
        if byte == b'\n' {
            return self.end_line(alloc, instance);
        }
        if self.begun.len() >= LONGEST {
            return Err(Trouble::Refused(1, self.count.at()));
        }
        self.begun.push(byte)?;
        self.count = self.count.with_bytes(1);
        Ok(())
    }

    /// Takes bytes that end no line.
    fn run(&mut self, alloc: Global, instance: &Instance, run: &[u8]) -> Result<(), Trouble>
        requires stands { Stands instance.now.n self.old.progress }
        requires no_end { HasNoLineEnd run.now }
        ensures reads { Reads instance.now.n result self.new (bytes_on (tests_by self.old.progress.purpose instance.now) (reads (reading_of self.old)) run.now) }
        ensures same { self.new.progress.purpose ≡ self.old.progress.purpose }
        ensures says { OnOk result (SaysMore self.old self.new (bytes_say (tests_by self.old.progress.purpose instance.now) (reads (reading_of self.old)) run.now)) }
    {
        if !self.has_room(run.len()) {
            return self.one_by_one(alloc, instance, run);
        }
        self.begun.extend_from_slice(run)?;
        self.count = self.count.with_bytes(run.len());
        Ok(())
    }

    /// Takes bytes one by one.
    fn one_by_one(
        &mut self,
        alloc: Global,
        instance: &Instance,
        bytes: &[u8],
    ) -> Result<(), Trouble>
        requires { Stands instance.now.n self.old.progress }
        ensures reads { Reads instance.now.n result self.new (bytes_on (tests_by self.old.progress.purpose instance.now) (reads (reading_of self.old)) bytes.now) }
        ensures same { self.new.progress.purpose ≡ self.old.progress.purpose }
        ensures says { OnOk result (SaysMore self.old self.new (bytes_say (tests_by self.old.progress.purpose instance.now) (reads (reading_of self.old)) bytes.now)) }
    {
        for byte in bytes {
            self.byte(alloc, instance, *byte)?;
        }
        Ok(())
    }

    /// Takes bytes that end no line, and a line feed. A line that comes whole is not copied.
    fn line(&mut self, alloc: Global, instance: &Instance, run: &[u8]) -> Result<(), Trouble>
        requires stands { Stands instance.now.n self.old.progress }
        requires no_end { HasNoLineEnd run.now }
        ensures reads { Reads instance.now.n result self.new (bytes_on (tests_by self.old.progress.purpose instance.now) (reads (reading_of self.old)) (run.now ++ 10 ∷ [])) }
        ensures same { self.new.progress.purpose ≡ self.old.progress.purpose }
        ensures says { OnOk result (SaysMore self.old self.new (bytes_say (tests_by self.old.progress.purpose instance.now) (reads (reading_of self.old)) (run.now ++ 10 ∷ []))) }
    {
        if !self.begun.is_empty() || !self.has_room(run.len()) {
            self.run(alloc, instance, run)?;
            return self.byte(alloc, instance, b'\n');
        }
        let part = self.progress.line(alloc, instance, self.count.at(), run)?;
        self.parts.put(self.progress.purpose, part)?;
        self.count = self.count.with_bytes(run.len()).with_line_end();
        Ok(())
    }

    /// Whether so many bytes more leave the line and the text within their bounds, and the tree has not ended.
    fn has_room(&self, more: usize) -> bool
        ensures { result ≡ true → HasRoom more (reading_of self.now) }
    {
        if let Stage::End = self.progress.stage {
            return false;
        }
        more <= LONGEST
            && self.begun.len() <= LONGEST - more
            && self.count.read() < MOST - LONGEST as u64
    }

    /// Takes the next piece of the text. O(1) for each of its bytes, beside what the lines cost.
    pub(crate) fn feed(
        &mut self,
        alloc: Global,
        instance: &Instance,
        piece: &[u8],
    ) -> Result<(), Trouble>
        requires { Stands instance.now.n self.old.progress }
        ensures reads { Reads instance.now.n result self.new (bytes_on (tests_by self.old.progress.purpose instance.now) (reads (reading_of self.old)) piece.now) }
        ensures same { self.new.progress.purpose ≡ self.old.progress.purpose }
        ensures says { OnOk result (SaysMore self.old self.new (bytes_say (tests_by self.old.progress.purpose instance.now) (reads (reading_of self.old)) piece.now)) }
    {
        let mut rest = piece;
        while let Some(end) = memchr(b'\n', rest) {
            let (run, tail) = rest.split_at(end);
            self.line(alloc, instance, run)?;
            rest = &tail[1..];
        }
        self.run(alloc, instance, rest)
    }

    /// How many of so many bytes may be asked for: as many as there may be, and one that shows that there are too many.
    pub(crate) fn wanted(&self, room: usize) -> usize
        ensures some { 0 < room → 0 < result }
        ensures fits { result ≤ room }
        ensures few { self.now.count.read + result ≤ 2 ^ 60 + 1 }
    {
        let left = MOST + 1 - self.count.read();
        if left < room as u64 {
            left as usize
        } else {
            room
        }
    }

    /// What becomes of the text if it ends here.
    pub(crate) fn finish(&self) -> Answer
        ensures { verdict_of result ≡ end_of (reading_of self.now) }
    {
        if !self.begun.is_empty() {
            return Answer::No(1, self.count.at());
        }
        match self.progress.stage {
            Stage::End => Answer::Yes {
                length: self.progress.long,
                bound: self.progress.bound,
            },
            _ => Answer::No(1, self.count.at()),
        }
    }

    /// How much is held.
    pub(crate) fn sizes(&self) -> Sizes
        requires { (n : ℕ) × Stands n self.now.progress }
        ensures { result ≡ sizes_of (reading_of self.now) }
    {
        Sizes {
            depth: self.progress.depth(),
            cuts: self.progress.cuts(),
            leaf: self.progress.leaf(),
            line: self.begun.len(),
        }
    }
}
