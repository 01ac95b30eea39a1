//! The real slots: two files.
ghost use Rattle.std.specs.Prelude.{◌≡◌, ℕ, ◌-◌, ◌<◌, ◌≤◌, ◌↔◌, ◌⊎◌, [], length, is_err, IsErr, None, IfOk};
ghost use Rattle.ports.specs.Calls.{faults_after};
ghost use Rattle.ports.specs.Outside.{Cause};

use crate::files::count_fault;
use crate::slot_file::{MOST_PATH, SlotFile, read_at, sync, write_at};
use crate::{Failed, Slots};
use std::alloc::{AllocError, Global};
use std::rt::Files;

/// Slots over the files `PATH.0` and `PATH.1`. They tell nothing of what the files hold: that these behave as
/// slots do is trusted.
///
/// A missing file is an empty slot; it is made by the first write, and never by a read. A sync also sees to it
/// that the file's name is kept. A call before the first bind fails, and so does a bind of a path that is
/// longer than the system's paths.
#[derive(Drop)]
pub struct FileSlots<R: Files + Drop> {
    rt: R,
    slot0: SlotFile<R::File>,
    slot1: SlotFile<R::File>,
    faults: u64,
}

impl<R: Files + Drop> FileSlots<R> {
    ghost use Rattle.ports.specs.FileSlots.{faults_of};

    /// Nothing is bound, and nothing has failed. The room for paths is taken here.
    pub fn new(alloc: Global, rt: R) -> Result<FileSlots<R>, AllocError>
        ensures { IfOk result (λ slots. faults_of slots ≡ 0) }
    {
        Ok(FileSlots {
            slot0: SlotFile::new(alloc)?,
            slot1: SlotFile::new(alloc)?,
            rt,
            faults: 0,
        })
    }

    /// How often a call has failed.
    pub fn faults(&self) -> u64
        ensures { result ≡ faults_of self.now }
    {
        self.faults
    }
}

impl<R: Files + Drop> Slots for FileSlots<R> {
    ghost use Rattle.ports.specs.FileSlots.{faults_of};

    ghost told = { λ _. None };

    ghost past = { λ _. [] };

    ghost faults = { faults_of };

    fn bind(&mut self, path: &str) -> Result<(), Failed>
        ensures fails { IsErr result ↔ ((length path.now ≡ 0) ⊎ (MOST_PATH - 2 < length path.now)) }
        ensures faults { faults_of self.new ≡ faults_after (is_err result) (faults_of self.old) }
        ensures cause { Cause (IsErr result) (faults_of self.old) (faults_of self.new) }
    {
        if path.is_empty() || path.len() > MOST_PATH - 2 {
            count_fault(&mut self.faults, true);
            return Err(Failed);
        }
        self.slot0.bind(path, ".0");
        self.slot1.bind(path, ".1");
        Ok(())
    }

    fn read_at(&mut self, slot: u8, pos: u64, buf: &mut [u8]) -> Result<usize, Failed>
        requires { slot < 2 }
        ensures within { IfOk result (λ k. k ≤ length buf.old) }
        ensures faults { faults_of self.new ≡ faults_after (is_err result) (faults_of self.old) }
        ensures cause { Cause (IsErr result) (faults_of self.old) (faults_of self.new) }
    {
        let outcome = if slot == 0 {
            read_at(&self.rt, &mut self.slot0, pos, buf)
        } else {
            read_at(&self.rt, &mut self.slot1, pos, buf)
        };
        count_fault(&mut self.faults, outcome.is_err());
        outcome
    }

    fn write_at(&mut self, slot: u8, pos: u64, bytes: &[u8]) -> Result<(), Failed>
        requires { slot < 2 }
        ensures faults { faults_of self.new ≡ faults_after (is_err result) (faults_of self.old) }
        ensures cause { Cause (IsErr result) (faults_of self.old) (faults_of self.new) }
    {
        let outcome = if slot == 0 {
            write_at(&self.rt, &mut self.slot0, pos, bytes)
        } else {
            write_at(&self.rt, &mut self.slot1, pos, bytes)
        };
        count_fault(&mut self.faults, outcome.is_err());
        outcome
    }

    fn sync(&mut self, slot: u8) -> Result<(), Failed>
        requires { slot < 2 }
        ensures faults { faults_of self.new ≡ faults_after (is_err result) (faults_of self.old) }
        ensures cause { Cause (IsErr result) (faults_of self.old) (faults_of self.new) }
    {
        let outcome = if slot == 0 {
            sync(&self.rt, &mut self.slot0)
        } else {
            sync(&self.rt, &mut self.slot1)
        };
        count_fault(&mut self.faults, outcome.is_err());
        outcome
    }
}
