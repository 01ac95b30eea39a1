//! Replacing the older body, so that a crash at any moment leaves the newer one or the new one.
ghost use Rattle.std.specs.Prelude.{◌≡◌, ℕ, ◌<◌, IfOk, IfSome, OnOk, OnErr, IsErr};
ghost use Rattle.ports.specs.Crash.{Since, moment_of};
ghost use Rattle.ports.specs.Outside.{BothTell, WhereTold, Cause};
ghost use Rattle.ports.specs.Slots.{slot_of};
ghost use Rattle.slotstore.specs.Crashing.{Breaks, IsKept, Leaves, LoadsAs, ReadsOr, SameOrNone, settled, shut};
ghost use Rattle.slotstore.specs.Standing.{IsNext};
ghost use Rattle.slotstore.specs.Store.{after_save, ChangesTarget};
ghost use Rattle.slotstore.specs.Writing.{Becomes, KeepsOthers};

use crate::header::is_shut;
use crate::newer::choose;
use crate::saving::{fill, set_gate};
use crate::target::Target;
use ports::{Failed, Slots};

// Syncs both slots, so that a crash leaves what reads give.
fn settle<L: Slots>(slots: &mut L) -> Result<(), Failed>
    ensures settled { OnOk result (BothTell (λ t u. u ≡ settled t) (L.told slots.old) (L.told slots.new)) }
    ensures failed { OnErr result (BothTell (Breaks (λ t u. u ≡ t)) (L.told slots.old) (L.told slots.new)) }
    ensures crash { BothTell (λ t u. Since (LoadsAs (moment_of t)) (L.past slots.old) (L.past slots.new) u) (L.told slots.old) (L.told slots.new) }
    ensures cause { Cause (IsErr result) (L.faults slots.old) (L.faults slots.new) }
{
    slots.sync(0)?;
    slots.sync(1)
}

/// Syncs both slots, so that a crash leaves what reads give, and then reads where the next save goes.
pub(crate) fn next_save<L: Slots>(slots: &mut L) -> Result<Target, Failed>
    ensures next { IfOk result (λ next. WhereTold (IsNext next) (L.told slots.new)) }
    ensures settled { OnOk result (BothTell (λ t u. u ≡ settled t) (L.told slots.old) (L.told slots.new)) }
    ensures failed { OnErr result (BothTell (Breaks (λ t u. u ≡ t)) (L.told slots.old) (L.told slots.new)) }
    ensures crash { BothTell (λ t u. Since (LoadsAs (moment_of t)) (L.past slots.old) (L.past slots.new) u) (L.told slots.old) (L.told slots.new) }
    ensures cause { Cause (IsErr result) (L.faults slots.old) (L.faults slots.new) }
{
    settle(slots)?;
    choose(slots)
}

/// The same; where that is kept already, nothing is done.
pub(crate) fn next_save_unless<L: Slots>(
    slots: &mut L,
    kept: Option<Target>,
) -> Result<Target, Failed>
    requires { WhereTold (λ t. IfSome kept (λ next. IsNext next t)) (L.told slots.old) }
    ensures next { IfOk result (λ next. WhereTold (IsNext next) (L.told slots.new)) }
    ensures settled { OnOk result (BothTell (λ t u. u ≡ settled t) (L.told slots.old) (L.told slots.new)) }
    ensures failed { OnErr result (BothTell (Breaks (λ t u. u ≡ t)) (L.told slots.old) (L.told slots.new)) }
    ensures crash { BothTell (λ t u. Since (LoadsAs (moment_of t)) (L.past slots.old) (L.past slots.new) u) (L.told slots.old) (L.told slots.new) }
    ensures cause { Cause (IsErr result) (L.faults slots.old) (L.faults slots.new) }
{
    match kept {
        Some(next) => Ok(next),
        None => next_save(slots),
    }
}

/// Writes a body to the slot that is not the newer one.
pub(crate) fn replace<L: Slots>(slots: &mut L, next: Target, body: &[u8]) -> Result<(), Failed>
    requires { WhereTold (IsNext next) (L.told slots.old) }
    ensures written { OnOk result (BothTell (λ t u. u ≡ after_save body.now t) (L.told slots.old) (L.told slots.new)) }
    ensures kept { BothTell ChangesTarget (L.told slots.old) (L.told slots.new) }
    ensures crash { BothTell (λ t u. Since (ReadsOr t body.now) (L.past slots.old) (L.past slots.new) u) (L.told slots.old) (L.told slots.new) }
    ensures cause { Cause (IsErr result) (L.faults slots.old) (L.faults slots.new) }
{
    shut(slots, next.slot)?;
    fill(slots, next.slot, next.number, body)?;
    set_gate(slots, next.slot, 1)
}

// Shuts the gate of a slot, and syncs it. A gate that reads closed is left alone: while it was written anew, a crash could
// leave it open before a torn body.
fn shut<L: Slots>(slots: &mut L, slot: u8) -> Result<(), Failed>
    requires { slot < 2 }
    ensures written { OnOk result (BothTell (λ t u. IsKept slot t → Becomes slot shut t u) (L.told slots.old) (L.told slots.new)) }
    ensures kept { BothTell (KeepsOthers slot) (L.told slots.old) (L.told slots.new) }
    ensures crash { BothTell (λ t u. IsKept slot t → Since (Leaves slot (SameOrNone (slot_of slot t).bytes) t) (L.past slots.old) (L.past slots.new) u) (L.told slots.old) (L.told slots.new) }
    ensures cause { Cause (IsErr result) (L.faults slots.old) (L.faults slots.new) }
{
    if is_shut(slots, slot)? {
        return Ok(());
    }
    set_gate(slots, slot, 0)
}
