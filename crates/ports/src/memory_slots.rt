//! Slots in memory, with calls that fail on demand and a record of all calls.
ghost use Rattle.std.specs.Prelude.{◌≡◌, ℕ, ◌+◌, ◌-◌, ◌^◌, ◌<◌, ◌≤◌, ◌↔◌, ◌++◌, [], ◌∷◌, min, take, drop, length, reverse, is_err, if◌then◌else◌, Some, Option, IfOk, OnOk, OnErr, IsErr, vec_len, vec_capacity};
ghost use Rattle.std.specs.Option.{option_map};
ghost use Rattle.ports.specs.Outside.{Cause};
ghost use Rattle.ports.specs.Calls.{faults_after};
ghost use Rattle.ports.specs.Records.{noted, write_room};
ghost use Rattle.ports.specs.Crash.{Passes};
ghost use Rattle.ports.specs.History.{first_history, history};
ghost use Rattle.ports.specs.Slots.{kept_slot, slot_of, with_slot, with_path, after_write, after_sync, IsTorn, IsScrambled, ChangesSlot, IsPastEnd};

use crate::buffers::{append, copy_part, put};
use crate::record::{admits, note};
use crate::{Failed, Room, SlotCall, SlotEntry, Slots};
use std::alloc::{AllocError, Global};

/// Slots over byte lists. A call fails exactly where the list names it, by its number among the calls of its
/// kind or among all, or where the room that is left is too small: each call takes one of the calls that there
/// is room for, and is put on record there. A failed call changes no byte. No call allocates. What they were
/// made with is kept beside the record, so that the two say what a crash might have left at each moment.
#[derive(Drop)]
pub struct MemSlots {
    first0: Vec<u8>,
    first1: Vec<u8>,
    slot0: Vec<u8>,
    slot1: Vec<u8>,
    bad: Vec<(SlotCall, u64)>,
    entries: Vec<SlotEntry>,
    written: Vec<u8>,
    paths: Vec<u8>,
    path_at: usize,
    is_bound: bool,
    binds: u64,
    room: Room,
    faults: u64,
    ghost slot0_fits: { vec_len slot0 + room.bytes ≤ vec_capacity slot0 },
    ghost slot1_fits: { vec_len slot1 + room.bytes ≤ vec_capacity slot1 },
    ghost written_fits: { vec_len written + room.bytes ≤ vec_capacity written },
    ghost paths_fit: { vec_len paths + room.paths ≤ vec_capacity paths },
    ghost entries_fit: { vec_len entries + room.calls ≤ vec_capacity entries },
    ghost countable: { binds + room.calls < 2 ^ 64 },
    ghost path_within: { path_at ≤ vec_len paths },
    ghost slot0_told: { (history (first_history first0.items first1.items) (reverse entries.items) written.items).now.slot0.bytes ≡ slot0.items },
    ghost slot1_told: { (history (first_history first0.items first1.items) (reverse entries.items) written.items).now.slot1.bytes ≡ slot1.items },
}

// A list of these bytes, with room for more.
fn with_room(alloc: Global, bytes: &[u8], room: usize) -> Result<Vec<u8>, AllocError>
    ensures items { IfOk result (λ list. list.items ≡ bytes.now) }
    ensures fits { IfOk result (λ list. vec_len list + room ≤ vec_capacity list) }
{
    let mut list = Vec::from_slice(alloc, bytes)?;
    list.reserve(room)?;
    Ok(list)
}

// The room that a write takes.
fn write_room(pos: u64, len: usize, end: usize) -> u128
    ensures { result ≡ write_room pos len end }
{
    if len == 0 {
        return 0;
    }
    u128::from(pos.saturating_sub(end as u64)) + len as u128
}

impl MemSlots {
    ghost use Rattle.ports.specs.MemSlots.{told_of, past_of, bad_of, entries_of, written_of, paths_of, room_of, faults_of};

    /// Slots with these bytes, where the calls that `bad` names fail; calls are numbered from 1. All the memory
    /// is taken here.
    pub fn new(
        alloc: Global,
        slot0: &[u8],
        slot1: &[u8],
        bad: &[(SlotCall, u64)],
        room: Room,
    ) -> Result<MemSlots, AllocError>
        ensures told { IfOk result (λ slots. told_of slots ≡ record {
          slot0 = kept_slot slot0.now;
          slot1 = kept_slot slot1.now;
          path = Option.None;
          binds = 0;
        }) }
        ensures past { IfOk result (λ slots. past_of slots ≡ []) }
        ensures bad { IfOk result (λ slots. bad_of slots ≡ bad.now) }
        ensures entries { IfOk result (λ slots. entries_of slots ≡ []) }
        ensures written { IfOk result (λ slots. written_of slots ≡ []) }
        ensures paths { IfOk result (λ slots. paths_of slots ≡ []) }
        ensures room { IfOk result (λ slots. room_of slots ≡ room) }
        ensures faults { IfOk result (λ slots. faults_of slots ≡ 0) }
    {
        Ok(MemSlots {
            first0: Vec::from_slice(alloc, slot0)?,
            first1: Vec::from_slice(alloc, slot1)?,
            slot0: with_room(alloc, slot0, room.bytes)?,
            slot1: with_room(alloc, slot1, room.bytes)?,
            bad: Vec::from_slice(alloc, bad)?,
            entries: Vec::with_capacity(alloc, room.calls)?,
            written: Vec::with_capacity(alloc, room.bytes)?,
            paths: Vec::with_capacity(alloc, room.paths)?,
            path_at: 0,
            is_bound: false,
            binds: 0,
            room,
            faults: 0,
        })
    }

    /// The bytes of a slot.
    pub fn slot(&self, slot: u8) -> &[u8]
        requires { slot < 2 }
        ensures { result.now ≡ (slot_of slot (told_of self.now)).bytes }
    {
        if slot == 0 { &self.slot0 } else { &self.slot1 }
    }

    /// The path last bound.
    pub fn path(&self) -> Option<&[u8]>
        ensures { option_map (λ path. path.now) result ≡ (told_of self.now).path }
    {
        if self.is_bound {
            Some(&self.paths[self.path_at..])
        } else {
            None
        }
    }

    /// How often a path was bound; a bind that failed is not counted.
    pub fn binds(&self) -> u64
        ensures { result ≡ (told_of self.now).binds }
    {
        self.binds
    }

    /// The record of the calls, oldest first.
    pub fn entries(&self) -> &[SlotEntry]
        ensures { result.now ≡ entries_of self.now }
    {
        &self.entries
    }

    /// The bytes of all writes that succeeded, one piece behind the other.
    pub fn written(&self) -> &[u8]
        ensures { result.now ≡ written_of self.now }
    {
        &self.written
    }

    /// The paths of all binds that succeeded, one behind the other.
    pub fn paths(&self) -> &[u8]
        ensures { result.now ≡ paths_of self.now }
    {
        &self.paths
    }

    /// How often a call has failed.
    pub fn faults(&self) -> u64
        ensures { result ≡ faults_of self.now }
    {
        self.faults
    }

    /// The room that is left.
    pub fn room(&self) -> Room
        ensures { result ≡ room_of self.now }
    {
        self.room
    }
}

impl Slots for MemSlots {
    ghost use Rattle.std.specs.Prelude.{Some};
    ghost use Rattle.ports.specs.MemSlots.{told_of, past_of, bad_of, entries_of, written_of, paths_of, room_of, faults_of, call_fails, bind_fails, write_fails, room_for, IsUnmoved};

    ghost told = { λ slots. Some (told_of slots) };

    ghost past = { past_of };

    ghost faults = { faults_of };

    fn bind(&mut self, path: &str) -> Result<(), Failed>
        ensures bound { OnOk result (told_of self.new ≡ with_path path.now (told_of self.old)) }
        ensures err { OnErr result (told_of self.new ≡ told_of self.old) }
        ensures past { past_of self.new ≡ past_of self.old }
        ensures cause { Cause (IsErr result) (faults_of self.old) (faults_of self.new) }

        // Exactly which call fails, and what is kept of it.
        ensures fails { is_err result ≡ bind_fails (length path.now) self.old }
        ensures faults { faults_of self.new ≡ faults_after (is_err result) (faults_of self.old) }
        ensures entries { entries_of self.new ≡ noted (room_of self.old).calls (entries_of self.old) (record {
          call = SlotCall.Bind;
          slot = 0;
          pos = 0;
          len = length path.now;
          failed = is_err result;
        }) }
        ensures paths { paths_of self.new ≡ (if is_err result then paths_of self.old else paths_of self.old ++ path.now) }
        ensures written { written_of self.new ≡ written_of self.old }
        ensures room { room_of self.new ≡ record (room_of self.old) {
          paths = (room_of self.old).paths - (if is_err result then 0 else length path.now);
          calls = (room_of self.old).calls - 1;
        } }
        ensures bad { bad_of self.new ≡ bad_of self.old }
    {
        let len = path.len();
        let admitted = admits(self.room.calls, &self.bad, &self.entries, SlotCall::Bind);
        let failed = !admitted || self.room.paths < len;
        let entry = SlotEntry {
            call: SlotCall::Bind,
            slot: 0,
            pos: 0,
            len,
            failed,
        };
        note(
            &mut self.entries,
            &mut self.room.calls,
            &mut self.faults,
            entry,
        );
        if failed {
            return Err(Failed);
        }
        self.room.paths -= len;
        self.path_at = self.paths.len();
        self.is_bound = true;
        self.binds += 1;
        append(&mut self.paths, path.as_bytes());
        Ok(())
    }

    fn read_at(&mut self, slot: u8, pos: u64, buf: &mut [u8]) -> Result<usize, Failed>
        requires { slot < 2 }
        ensures within { IfOk result (λ k. k ≤ length buf.old) }
        ensures bytes { IfOk result (λ k. take k buf.new ≡ take k (drop pos (slot_of slot (told_of self.old)).bytes)) }
        ensures end { IfOk result (λ k. 0 < length buf.old → (k ≡ 0) ↔ IsPastEnd slot pos (told_of self.old)) }
        ensures told { told_of self.new ≡ told_of self.old }
        ensures past { past_of self.new ≡ past_of self.old }
        ensures cause { Cause (IsErr result) (faults_of self.old) (faults_of self.new) }

        // Exactly which call fails, how much is read, and what is kept of it.
        ensures fails { is_err result ≡ call_fails SlotCall.Read self.old }
        ensures count { IfOk result (λ k. k ≡ min (length buf.old) (length (slot_of slot (told_of self.old)).bytes - pos)) }
        ensures faults { faults_of self.new ≡ faults_after (is_err result) (faults_of self.old) }
        ensures entries { entries_of self.new ≡ noted (room_of self.old).calls (entries_of self.old) (record {
          call = SlotCall.Read;
          slot = slot;
          pos = pos;
          len = length buf.old;
          failed = is_err result;
        }) }
        ensures paths { paths_of self.new ≡ paths_of self.old }
        ensures written { written_of self.new ≡ written_of self.old }
        ensures room { room_of self.new ≡ record (room_of self.old) { calls = (room_of self.old).calls - 1 } }
        ensures bad { bad_of self.new ≡ bad_of self.old }
    {
        let len = buf.len();
        let failed = !admits(self.room.calls, &self.bad, &self.entries, SlotCall::Read);
        let entry = SlotEntry {
            call: SlotCall::Read,
            slot,
            pos,
            len,
            failed,
        };
        note(
            &mut self.entries,
            &mut self.room.calls,
            &mut self.faults,
            entry,
        );
        if failed {
            return Err(Failed);
        }
        let bytes = self.slot(slot);
        let at = bytes.len().min(pos as usize);
        Ok(copy_part(bytes, at, buf, len))
    }

    fn write_at(&mut self, slot: u8, pos: u64, bytes: &[u8]) -> Result<(), Failed>
        requires { slot < 2 }
        ensures written { OnOk result (told_of self.new ≡ with_slot slot (after_write pos bytes.now (slot_of slot (told_of self.old))) (told_of self.old)) }
        ensures torn { OnErr result (ChangesSlot slot (IsTorn (record { start = pos; size = length bytes.now })) (told_of self.old) (told_of self.new)) }
        ensures past { Passes (told_of self.old) (told_of self.new) (past_of self.old) (past_of self.new) }
        ensures cause { Cause (IsErr result) (faults_of self.old) (faults_of self.new) }

        // Exactly which call fails, and what is kept of it.
        ensures fails { is_err result ≡ write_fails slot pos (length bytes.now) self.old }
        ensures unmoved { OnErr result (IsUnmoved (told_of self.old) (told_of self.new)) }
        ensures faults { faults_of self.new ≡ faults_after (is_err result) (faults_of self.old) }
        ensures entries { entries_of self.new ≡ noted (room_of self.old).calls (entries_of self.old) (record {
          call = SlotCall.Write;
          slot = slot;
          pos = pos;
          len = length bytes.now;
          failed = is_err result;
        }) }
        ensures paths { paths_of self.new ≡ paths_of self.old }
        ensures pieces { written_of self.new ≡ (if is_err result then written_of self.old else written_of self.old ++ bytes.now) }
        ensures room { room_of self.new ≡ record (room_of self.old) {
          bytes = (room_of self.old).bytes - (if is_err result then 0 else room_for slot pos (length bytes.now) self.old);
          calls = (room_of self.old).calls - 1;
        } }
        ensures bad { bad_of self.new ≡ bad_of self.old }
    {
        let len = bytes.len();
        let size = write_room(pos, len, self.slot(slot).len());
        let admitted = admits(self.room.calls, &self.bad, &self.entries, SlotCall::Write);
        let failed = !admitted || (self.room.bytes as u128) < size;
        let entry = SlotEntry {
            call: SlotCall::Write,
            slot,
            pos,
            len,
            failed,
        };
        note(
            &mut self.entries,
            &mut self.room.calls,
            &mut self.faults,
            entry,
        );
        if failed {
            return Err(Failed);
        }
        self.room.bytes -= size as usize;
        append(&mut self.written, bytes);
        if slot == 0 {
            put(&mut self.slot0, pos as usize, bytes);
        } else {
            put(&mut self.slot1, pos as usize, bytes);
        }
        Ok(())
    }

    fn sync(&mut self, slot: u8) -> Result<(), Failed>
        requires { slot < 2 }
        ensures synced { OnOk result (told_of self.new ≡ with_slot slot (after_sync (slot_of slot (told_of self.old))) (told_of self.old)) }
        ensures scrambled { OnErr result (ChangesSlot slot IsScrambled (told_of self.old) (told_of self.new)) }
        ensures past { Passes (told_of self.old) (told_of self.new) (past_of self.old) (past_of self.new) }
        ensures cause { Cause (IsErr result) (faults_of self.old) (faults_of self.new) }

        // Exactly which call fails, and what is kept of it.
        ensures fails { is_err result ≡ call_fails SlotCall.Sync self.old }
        ensures unmoved { IsUnmoved (told_of self.old) (told_of self.new) }
        ensures faults { faults_of self.new ≡ faults_after (is_err result) (faults_of self.old) }
        ensures entries { entries_of self.new ≡ noted (room_of self.old).calls (entries_of self.old) (record {
          call = SlotCall.Sync;
          slot = slot;
          pos = 0;
          len = 0;
          failed = is_err result;
        }) }
        ensures paths { paths_of self.new ≡ paths_of self.old }
        ensures written { written_of self.new ≡ written_of self.old }
        ensures room { room_of self.new ≡ record (room_of self.old) { calls = (room_of self.old).calls - 1 } }
        ensures bad { bad_of self.new ≡ bad_of self.old }
    {
        let failed = !admits(self.room.calls, &self.bad, &self.entries, SlotCall::Sync);
        let entry = SlotEntry {
            call: SlotCall::Sync,
            slot,
            pos: 0,
            len: 0,
            failed,
        };
        note(
            &mut self.entries,
            &mut self.room.calls,
            &mut self.faults,
            entry,
        );
        if failed {
            return Err(Failed);
        }
        Ok(())
    }
}
