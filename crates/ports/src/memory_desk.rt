//! A desk in memory, with calls that fail on demand.
ghost use Rattle.std.specs.Prelude.{◌≡◌, ℕ, ◌+◌, ◌-◌, ◌^◌, ◌<◌, ◌≤◌, ◌↔◌, ◌||◌, ◌&&◌, ◌==◌, nat_lt, min, not, take, length, is_err, if◌then◌else◌, Some, Option, IfOk, OnOk, OnErr, IsErr, IsTrue, vec_len, vec_capacity};
ghost use Rattle.ports.specs.Calls.{is_bad, one_more, faults_after};
ghost use Rattle.ports.specs.Outside.{BothTell, WhereTold, Cause};
ghost use Rattle.ports.specs.Desk.{Told, left, taken, Takes, Adds, IsAtEnd, with_inlet_path, with_outlet_path};

use crate::buffers::{BoundPath, Source, append};
use crate::calls::admits;
use crate::{Desk, Failed, Inlet, Outlet, Room};
use std::alloc::{AllocError, Global};

/// A desk over byte lists. A call fails exactly where a list names its number, or where the room that is left
/// is too small: each call takes one of the calls that there is room for, and a write fails for want of bytes
/// only where none is left. A failed call changes nothing but the counts. No call allocates.
#[derive(Drop)]
pub struct MemDesk {
    instance: Source,
    proof_in: Source,
    text: Vec<u8>,
    proof_out: Vec<u8>,
    instance_path: BoundPath,
    proof_in_path: BoundPath,
    proof_out_path: BoundPath,
    most_read: usize,
    most_write: usize,
    bad_binds: Vec<u64>,
    bad_reads: Vec<u64>,
    bad_writes: Vec<u64>,
    binds: u64,
    reads: u64,
    writes: u64,
    room: Room,
    read_faults: u64,
    write_faults: u64,
    ghost some_read: { 0 < most_read },
    ghost some_write: { 0 < most_write },
    ghost text_fits: { vec_len text + room.bytes ≤ vec_capacity text },
    ghost proof_fits: { vec_len proof_out + room.bytes ≤ vec_capacity proof_out },
    ghost instance_path_fits: { room.paths ≤ vec_capacity instance_path.bytes },
    ghost proof_in_path_fits: { room.paths ≤ vec_capacity proof_in_path.bytes },
    ghost proof_out_path_fits: { room.paths ≤ vec_capacity proof_out_path.bytes },
    ghost instance_binds: { instance_path.binds ≤ binds },
    ghost proof_in_binds: { proof_in_path.binds ≤ binds },
    ghost proof_out_binds: { proof_out_path.binds ≤ binds },
    ghost countable: { binds + reads + writes + room.calls < 2 ^ 64 },
}

impl MemDesk {
    ghost use Rattle.std.specs.Prelude.{IfOk, [], None};
    ghost use Rattle.std.specs.Option.{option_map};
    ghost use Rattle.ports.specs.Desk.{left, inlet_path, inlet_binds};
    ghost use Rattle.ports.specs.MemDesk.{told_of, plan_of, made_of, room_of, read_faults_of, write_faults_of};

    /// A desk with these bytes to read, where a read gives at most `most_read` bytes and a write takes at most
    /// `most_write`. The calls that `bad_binds`, `bad_reads` and `bad_writes` name fail; calls of each kind are
    /// numbered from 1. All the memory is taken here.
    pub fn new(
        alloc: Global,
        instance: &[u8],
        proof: &[u8],
        most_read: usize,
        most_write: usize,
        bad_binds: &[u64],
        bad_reads: &[u64],
        bad_writes: &[u64],
        room: Room,
    ) -> Result<MemDesk, AllocError>
        requires some_read { 0 < most_read }
        requires some_write { 0 < most_write }
        ensures told { IfOk result (λ desk. told_of desk ≡ record {
          instance = instance.now;
          proof_in = proof.now;
          text = [];
          proof_out = [];
          instance_path = None;
          proof_in_path = None;
          proof_out_path = None;
          instance_binds = 0;
          proof_in_binds = 0;
          proof_out_binds = 0;
        }) }
        ensures plan { IfOk result (λ desk. plan_of desk ≡ record {
          most_read = most_read;
          most_write = most_write;
          bad_binds = bad_binds.now;
          bad_reads = bad_reads.now;
          bad_writes = bad_writes.now;
        }) }
        ensures made { IfOk result (λ desk. made_of desk ≡ record { binds = 0; reads = 0; writes = 0 }) }
        ensures room { IfOk result (λ desk. room_of desk ≡ room) }
        ensures read_faults { IfOk result (λ desk. read_faults_of desk ≡ 0) }
        ensures write_faults { IfOk result (λ desk. write_faults_of desk ≡ 0) }
    {
        Ok(MemDesk {
            instance: Source::new(alloc, instance)?,
            proof_in: Source::new(alloc, proof)?,
            text: Vec::with_capacity(alloc, room.bytes)?,
            proof_out: Vec::with_capacity(alloc, room.bytes)?,
            instance_path: BoundPath::new(alloc, room.paths)?,
            proof_in_path: BoundPath::new(alloc, room.paths)?,
            proof_out_path: BoundPath::new(alloc, room.paths)?,
            most_read,
            most_write,
            bad_binds: Vec::from_slice(alloc, bad_binds)?,
            bad_reads: Vec::from_slice(alloc, bad_reads)?,
            bad_writes: Vec::from_slice(alloc, bad_writes)?,
            binds: 0,
            reads: 0,
            writes: 0,
            room,
            read_faults: 0,
            write_faults: 0,
        })
    }

    /// The bytes left for an inlet.
    pub fn left(&self, from: Inlet) -> &[u8]
        ensures { result.now ≡ left from (told_of self.now) }
    {
        match from {
            Inlet::Instance => self.instance.rest(),
            Inlet::Proof => self.proof_in.rest(),
        }
    }

    /// The bytes that `Outlet::Text` has taken.
    pub fn text(&self) -> &[u8]
        ensures { result.now ≡ (told_of self.now).text }
    {
        &self.text
    }

    /// The bytes that `Outlet::Proof` has taken.
    pub fn proof(&self) -> &[u8]
        ensures { result.now ≡ (told_of self.now).proof_out }
    {
        &self.proof_out
    }

    /// The path last bound to an inlet.
    pub fn inlet_path(&self, from: Inlet) -> Option<&[u8]>
        ensures { option_map (λ path. path.now) result ≡ inlet_path from (told_of self.now) }
    {
        match from {
            Inlet::Instance => self.instance_path.path(),
            Inlet::Proof => self.proof_in_path.path(),
        }
    }

    /// How often an inlet was bound; a bind that failed is not counted.
    pub fn inlet_binds(&self, from: Inlet) -> u64
        ensures { result ≡ inlet_binds from (told_of self.now) }
    {
        match from {
            Inlet::Instance => self.instance_path.binds,
            Inlet::Proof => self.proof_in_path.binds,
        }
    }

    /// The path last bound to `Outlet::Proof`.
    pub fn proof_path(&self) -> Option<&[u8]>
        ensures { option_map (λ path. path.now) result ≡ (told_of self.now).proof_out_path }
    {
        self.proof_out_path.path()
    }

    /// How often `Outlet::Proof` was bound; a bind that failed is not counted.
    pub fn proof_binds(&self) -> u64
        ensures { result ≡ (told_of self.now).proof_out_binds }
    {
        self.proof_out_path.binds
    }

    /// How often `bind_in` and `read` have failed.
    pub fn read_faults(&self) -> u64
        ensures { result ≡ read_faults_of self.now }
    {
        self.read_faults
    }

    /// How often `bind_out` and `write` have failed.
    pub fn write_faults(&self) -> u64
        ensures { result ≡ write_faults_of self.now }
    {
        self.write_faults
    }

    /// The room that is left.
    pub fn room(&self) -> Room
        ensures { result ≡ room_of self.now }
    {
        self.room
    }
}

impl Desk for MemDesk {
    ghost use Rattle.std.specs.Prelude.{Some};
    ghost use Rattle.ports.specs.MemDesk.{told_of, plan_of, made_of, room_of, read_faults_of, write_faults_of, bind_fails, read_fails, write_fails, read_size, write_size};

    ghost told = { λ desk. Some (told_of desk) };

    ghost read_faults = { read_faults_of };

    ghost write_faults = { write_faults_of };

    fn bind_in(&mut self, from: Inlet, path: &str) -> Result<(), Failed>
        ensures bound { OnOk result (told_of self.new ≡ with_inlet_path from path.now (told_of self.old)) }
        ensures err { OnErr result (told_of self.new ≡ told_of self.old) }
        ensures cause { Cause (IsErr result) (read_faults_of self.old) (read_faults_of self.new) }
        ensures same { write_faults_of self.new ≡ write_faults_of self.old }

        // Exactly which call fails, and what is counted.
        ensures fails { is_err result ≡ bind_fails (length path.now) self.old }
        ensures faults { read_faults_of self.new ≡ faults_after (is_err result) (read_faults_of self.old) }
        ensures made { made_of self.new ≡ record (made_of self.old) { binds = one_more (room_of self.old).calls (made_of self.old).binds } }
        ensures room { room_of self.new ≡ record (room_of self.old) {
          paths = (room_of self.old).paths - (if is_err result then 0 else length path.now);
          calls = (room_of self.old).calls - 1;
        } }
        ensures plan { plan_of self.new ≡ plan_of self.old }
    {
        let admitted = admits(&mut self.room.calls, &mut self.binds, &self.bad_binds);
        if !admitted || self.room.paths < path.len() {
            self.read_faults = self.read_faults.saturating_add(1);
            return Err(Failed);
        }
        self.room.paths -= path.len();
        match from {
            Inlet::Instance => self.instance_path.set(path),
            Inlet::Proof => self.proof_in_path.set(path),
        }
        Ok(())
    }

    fn bind_out(&mut self, _to: Outlet, path: &str) -> Result<(), Failed>
        requires { _to ≡ Outlet.Proof }
        ensures bound { OnOk result (told_of self.new ≡ with_outlet_path path.now (told_of self.old)) }
        ensures err { OnErr result (told_of self.new ≡ told_of self.old) }
        ensures cause { Cause (IsErr result) (write_faults_of self.old) (write_faults_of self.new) }
        ensures same { read_faults_of self.new ≡ read_faults_of self.old }

        // Exactly which call fails, and what is counted.
        ensures fails { is_err result ≡ bind_fails (length path.now) self.old }
        ensures faults { write_faults_of self.new ≡ faults_after (is_err result) (write_faults_of self.old) }
        ensures made { made_of self.new ≡ record (made_of self.old) { binds = one_more (room_of self.old).calls (made_of self.old).binds } }
        ensures room { room_of self.new ≡ record (room_of self.old) {
          paths = (room_of self.old).paths - (if is_err result then 0 else length path.now);
          calls = (room_of self.old).calls - 1;
        } }
        ensures plan { plan_of self.new ≡ plan_of self.old }
    {
        let admitted = admits(&mut self.room.calls, &mut self.binds, &self.bad_binds);
        if !admitted || self.room.paths < path.len() {
            self.write_faults = self.write_faults.saturating_add(1);
            return Err(Failed);
        }
        self.room.paths -= path.len();
        self.proof_out_path.set(path);
        Ok(())
    }

    fn read(&mut self, from: Inlet, buf: &mut [u8]) -> Result<usize, Failed>
        ensures within { IfOk result (λ k. k ≤ length buf.old) }
        ensures bytes { IfOk result (λ k. Takes from (take k buf.new) (told_of self.old) (told_of self.new)) }
        ensures end { IfOk result (λ k. k ≡ 0 → 0 < length buf.old → IsAtEnd from (told_of self.old)) }
        ensures err { OnErr result (told_of self.new ≡ told_of self.old) }
        ensures cause { Cause (IsErr result) (read_faults_of self.old) (read_faults_of self.new) }
        ensures same { write_faults_of self.new ≡ write_faults_of self.old }

        // Exactly which call fails, how much is read, and what is counted.
        ensures fails { is_err result ≡ read_fails self.old }
        ensures count { IfOk result (λ k. k ≡ read_size from (length buf.old) self.old) }
        ensures faults { read_faults_of self.new ≡ faults_after (is_err result) (read_faults_of self.old) }
        ensures made { made_of self.new ≡ record (made_of self.old) { reads = one_more (room_of self.old).calls (made_of self.old).reads } }
        ensures room { room_of self.new ≡ record (room_of self.old) { calls = (room_of self.old).calls - 1 } }
        ensures plan { plan_of self.new ≡ plan_of self.old }
    {
        if !admits(&mut self.room.calls, &mut self.reads, &self.bad_reads) {
            self.read_faults = self.read_faults.saturating_add(1);
            return Err(Failed);
        }
        match from {
            Inlet::Instance => Ok(self.instance.take(buf, self.most_read)),
            Inlet::Proof => Ok(self.proof_in.take(buf, self.most_read)),
        }
    }

    fn write(&mut self, to: Outlet, piece: &[u8]) -> Result<usize, Failed>
        ensures within { IfOk result (λ k. k ≤ length piece.now) }
        ensures some { IfOk result (λ k. 0 < length piece.now → 0 < k) }
        ensures bytes { IfOk result (λ k. Adds to (take k piece.now) (told_of self.old) (told_of self.new)) }
        ensures err { OnErr result (told_of self.new ≡ told_of self.old) }
        ensures cause { Cause (IsErr result) (write_faults_of self.old) (write_faults_of self.new) }
        ensures same { read_faults_of self.new ≡ read_faults_of self.old }

        // Exactly which call fails, how much is taken, and what is counted.
        ensures fails { is_err result ≡ write_fails (length piece.now) self.old }
        ensures count { IfOk result (λ k. k ≡ write_size (length piece.now) self.old) }
        ensures faults { write_faults_of self.new ≡ faults_after (is_err result) (write_faults_of self.old) }
        ensures made { made_of self.new ≡ record (made_of self.old) { writes = one_more (room_of self.old).calls (made_of self.old).writes } }
        ensures room { room_of self.new ≡ record (room_of self.old) {
          bytes = (room_of self.old).bytes - (if is_err result then 0 else write_size (length piece.now) self.old);
          calls = (room_of self.old).calls - 1;
        } }
        ensures plan { plan_of self.new ≡ plan_of self.old }
    {
        let admitted = admits(&mut self.room.calls, &mut self.writes, &self.bad_writes);
        if !admitted || (self.room.bytes == 0 && !piece.is_empty()) {
            self.write_faults = self.write_faults.saturating_add(1);
            return Err(Failed);
        }
        let count = piece.len().min(self.most_write.min(self.room.bytes));
        self.room.bytes -= count;
        match to {
            Outlet::Text => append(&mut self.text, &piece[..count]),
            Outlet::Proof => append(&mut self.proof_out, &piece[..count]),
        }
        Ok(count)
    }
}
