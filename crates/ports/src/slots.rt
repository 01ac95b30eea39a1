//! What slots are: two byte lists that outlive the process.
ghost use Rattle.std.specs.Prelude.{◌≡◌, ℕ, List, ◌<◌, ◌≤◌, ◌↔◌, take, drop, length, Option, IfOk, OnOk, OnErr, IsErr};
ghost use Rattle.ports.specs.Outside.{BothTell, WhereTold, Cause};
ghost use Rattle.ports.specs.Crash.{Moment, Passes};
ghost use Rattle.ports.specs.Slots.{SlotsTold, slot_of, with_slot, with_path, after_write, after_sync, IsTorn, IsScrambled, ChangesSlot, IsPastEnd};

use crate::Failed;

/// Two byte lists, slot 0 and slot 1, that are read and written at any place and kept by a sync.
///
/// Slots may tell what they hold (`told`); those that do not are bound by their count of faults alone. No call
/// changes whether they tell, and a call changes only the slot or the path that it names. The count never
/// falls, and a call fails only where it rose.
///
/// A crash may come at any moment. What it may leave of slots that tell is `MayLeave`: bytes written since the
/// slot's last sync that succeeded, and those past the end that it had then, may be any bytes, the latter also
/// missing; the others stay. So after a sync that succeeded a crash leaves what reads give.
pub trait Slots {
    /// What reads give, the ranges that are not synced, the path last bound and how often one was bound, if they
    /// are told.
    ghost told: { Self → Option SlotsTold };

    /// The moments before each write and sync so far, the last first, where they tell. Nothing that a crash may
    /// leave changes at other calls, and during a write or a sync a crash leaves what it may leave before or
    /// after.
    ghost past: { Self → List Moment };

    /// How often a call has failed; a count at 2^64 - 1 stays there.
    ghost faults: { Self → ℕ };

    /// Ties the slots to a path, and counts that. No byte that is told changes; a bind that fails changes nothing
    /// that is told.
    fn bind(&mut self, path: &str) -> Result<(), Failed>
        ensures bound { OnOk result (BothTell (λ t u. u ≡ with_path path.now t) (told self.old) (told self.new)) }
        ensures err { OnErr result (told self.new ≡ told self.old) }
        ensures past { past self.new ≡ past self.old }
        ensures cause { Cause (IsErr result) (faults self.old) (faults self.new) };

    /// Reads the bytes at a place to the front of `buf`, and says how many. Into a buffer that is not empty, 0
    /// comes exactly at or past the slot's end.
    fn read_at(&mut self, slot: u8, pos: u64, buf: &mut [u8]) -> Result<usize, Failed>
        requires { slot < 2 }
        ensures within { IfOk result (λ k. k ≤ length buf.old) }
        ensures bytes { IfOk result (λ k. WhereTold (λ t. take k buf.new ≡ take k (drop pos (slot_of slot t).bytes)) (told self.old)) }
        ensures end { IfOk result (λ k. 0 < length buf.old → WhereTold (λ t. (k ≡ 0) ↔ IsPastEnd slot pos t) (told self.old)) }
        ensures told { told self.new ≡ told self.old }
        ensures past { past self.new ≡ past self.old }
        ensures cause { Cause (IsErr result) (faults self.old) (faults self.new) };

    /// Writes all of `bytes` at a place, behind zeros where that lies past the slot's end. After a failure the
    /// range may hold any bytes, and the rest is as before.
    fn write_at(&mut self, slot: u8, pos: u64, bytes: &[u8]) -> Result<(), Failed>
        requires { slot < 2 }
        ensures written { OnOk result (BothTell (λ t u. u ≡ with_slot slot (after_write pos bytes.now (slot_of slot t)) t) (told self.old) (told self.new)) }
        ensures torn { OnErr result (BothTell (ChangesSlot slot (IsTorn (record { start = pos; size = length bytes.now }))) (told self.old) (told self.new)) }
        ensures past { BothTell (λ t u. Passes t u (past self.old) (past self.new)) (told self.old) (told self.new) }
        ensures cause { Cause (IsErr result) (faults self.old) (faults self.new) };

    /// Sees to it that what was written to a slot is kept. What reads give stays. After a failure the ranges
    /// written since the last sync may hold any bytes.
    fn sync(&mut self, slot: u8) -> Result<(), Failed>
        requires { slot < 2 }
        ensures synced { OnOk result (BothTell (λ t u. u ≡ with_slot slot (after_sync (slot_of slot t)) t) (told self.old) (told self.new)) }
        ensures scrambled { OnErr result (BothTell (ChangesSlot slot IsScrambled) (told self.old) (told self.new)) }
        ensures past { BothTell (λ t u. Passes t u (past self.old) (past self.new)) (told self.old) (told self.new) }
        ensures cause { Cause (IsErr result) (faults self.old) (faults self.new) };
}
