//! The real desk: files and the standard output.
ghost use Rattle.std.specs.Prelude.{◌≡◌, ℕ, ◌<◌, ◌≤◌, length, is_err, IsErr, None, IfOk};
ghost use Rattle.ports.specs.Calls.{faults_after};
ghost use Rattle.ports.specs.Outside.{Cause};

use crate::files::{count_fault, print_some, read_some, write_some};
use crate::{Desk, Failed, Inlet, Outlet};
use std::fs;
use std::rt::Files;

/// A desk over files and the standard output. It tells nothing of what they hold: that they behave as a desk
/// does is trusted.
///
/// `bind_in` opens a file to read, and `bind_out` makes one, or empties it, to write. A read or a write of what
/// is not bound fails.
#[derive(Drop)]
pub struct FileDesk<R: Files + Print + Drop> {
    rt: R,
    instance: Option<R::File>,
    proof_in: Option<R::File>,
    proof_out: Option<R::File>,
    read_faults: u64,
    write_faults: u64,
}

impl<R: Files + Print + Drop> FileDesk<R> {
    ghost use Rattle.ports.specs.FileDesk.{read_faults_of, write_faults_of};

    /// Nothing is bound, and nothing has failed.
    pub fn new(rt: R) -> FileDesk<R>
        ensures read_faults { read_faults_of result ≡ 0 }
        ensures write_faults { write_faults_of result ≡ 0 }
    {
        FileDesk {
            rt,
            instance: None,
            proof_in: None,
            proof_out: None,
            read_faults: 0,
            write_faults: 0,
        }
    }

    /// How often `bind_in` and `read` have failed.
    pub fn read_faults(&self) -> u64
        ensures { result ≡ read_faults_of self.now }
    {
        self.read_faults
    }

    /// How often `bind_out` and `write` have failed.
    pub fn write_faults(&self) -> u64
        ensures { result ≡ write_faults_of self.now }
    {
        self.write_faults
    }
}

impl<R: Files + Print + Drop> Desk for FileDesk<R> {
    ghost use Rattle.ports.specs.FileDesk.{read_faults_of, write_faults_of};

    ghost told = { λ _. None };

    ghost read_faults = { read_faults_of };

    ghost write_faults = { write_faults_of };

    fn bind_in(&mut self, from: Inlet, path: &str) -> Result<(), Failed>
        ensures faults { read_faults_of self.new ≡ faults_after (is_err result) (read_faults_of self.old) }
        ensures cause { Cause (IsErr result) (read_faults_of self.old) (read_faults_of self.new) }
        ensures same { write_faults_of self.new ≡ write_faults_of self.old }
    {
        let Ok(file) = fs::open(&self.rt, path) else {
            count_fault(&mut self.read_faults, true);
            return Err(Failed);
        };
        match from {
            Inlet::Instance => self.instance = Some(file),
            Inlet::Proof => self.proof_in = Some(file),
        }
        Ok(())
    }

    fn bind_out(&mut self, _to: Outlet, path: &str) -> Result<(), Failed>
        requires { _to ≡ Outlet.Proof }
        ensures faults { write_faults_of self.new ≡ faults_after (is_err result) (write_faults_of self.old) }
        ensures cause { Cause (IsErr result) (write_faults_of self.old) (write_faults_of self.new) }
        ensures same { read_faults_of self.new ≡ read_faults_of self.old }
    {
        let Ok(file) = fs::create(&self.rt, path) else {
            count_fault(&mut self.write_faults, true);
            return Err(Failed);
        };
        self.proof_out = Some(file);
        Ok(())
    }

    fn read(&mut self, from: Inlet, buf: &mut [u8]) -> Result<usize, Failed>
        ensures within { IfOk result (λ k. k ≤ length buf.old) }
        ensures faults { read_faults_of self.new ≡ faults_after (is_err result) (read_faults_of self.old) }
        ensures cause { Cause (IsErr result) (read_faults_of self.old) (read_faults_of self.new) }
        ensures same { write_faults_of self.new ≡ write_faults_of self.old }
    {
        let outcome = match from {
            Inlet::Instance => read_some(&mut self.instance, buf),
            Inlet::Proof => read_some(&mut self.proof_in, buf),
        };
        count_fault(&mut self.read_faults, outcome.is_err());
        outcome
    }

    fn write(&mut self, to: Outlet, piece: &[u8]) -> Result<usize, Failed>
        ensures within { IfOk result (λ k. k ≤ length piece.now) }
        ensures some { IfOk result (λ k. 0 < length piece.now → 0 < k) }
        ensures faults { write_faults_of self.new ≡ faults_after (is_err result) (write_faults_of self.old) }
        ensures cause { Cause (IsErr result) (write_faults_of self.old) (write_faults_of self.new) }
        ensures same { read_faults_of self.new ≡ read_faults_of self.old }
    {
        let outcome = match to {
            Outlet::Text => print_some(&self.rt, piece),
            Outlet::Proof => write_some(&mut self.proof_out, piece),
        };
        count_fault(&mut self.write_faults, outcome.is_err());
        outcome
    }
}
