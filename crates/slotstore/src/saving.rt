//! The steps of a save.
ghost use Rattle.std.specs.Prelude.{◌≡◌, ℕ, ◌+◌, ◌<◌, ◌∷◌, length, OnOk, IsErr};
ghost use Rattle.ports.specs.Outside.{BothTell, Cause};
ghost use Rattle.ports.specs.Crash.{Since};
ghost use Rattle.ports.specs.Slots.{slot_of};
ghost use Rattle.byteorder.specs.Endian.{big_bytes};
ghost use Rattle.slotstore.specs.Crashing.{IsKept, IsStray, Leaves};
ghost use Rattle.slotstore.specs.Writing.{KeepsOthers, Becomes, with_gate, with_body};

use crate::header::FRONT;
use byteorder::{BigEndian, ByteOrder};
use ports::{Failed, Slots};

/// Writes the gate of a slot, and syncs it.
pub(crate) fn set_gate<L: Slots>(slots: &mut L, slot: u8, gate: u8) -> Result<(), Failed>
    requires { slot < 2 }
    ensures written { OnOk result (BothTell (Becomes slot (with_gate gate)) (L.told slots.old) (L.told slots.new)) }
    ensures kept { BothTell (KeepsOthers slot) (L.told slots.old) (L.told slots.new) }
    ensures crash { BothTell (λ t u. IsKept slot t → Since (Leaves slot (IsStray 0 1 (slot_of slot t).bytes) t) (L.past slots.old) (L.past slots.new) u) (L.told slots.old) (L.told slots.new) }
    ensures cause { Cause (IsErr result) (L.faults slots.old) (L.faults slots.new) }
{
    slots.write_at(slot, 0, &[gate])?;
    slots.sync(slot)
}

/// Writes number, length and body of a slot, and syncs them.
pub(crate) fn fill<L: Slots>(slots: &mut L, slot: u8, number: u8, body: &[u8]) -> Result<(), Failed>
    requires { slot < 2 }
    ensures written { OnOk result (BothTell (Becomes slot (with_body number body.now)) (L.told slots.old) (L.told slots.new)) }
    ensures kept { BothTell (KeepsOthers slot) (L.told slots.old) (L.told slots.new) }
    ensures crash { BothTell (λ t u. IsKept slot t → Since (Leaves slot (IsStray 1 (9 + length body.now) (slot_of slot t).bytes) t) (L.past slots.old) (L.past slots.new) u) (L.told slots.old) (L.told slots.new) }
    ensures cause { Cause (IsErr result) (L.faults slots.old) (L.faults slots.new) }
{
    let label = label(number, body.len() as u64);
    slots.write_at(slot, 1, &label)?;
    slots.write_at(slot, FRONT as u64, body)?;
    slots.sync(slot)
}

// A number and a length, as they stand in a slot.
fn label(number: u8, len: u64) -> [u8; 9]
    ensures { result ≡ number ∷ big_bytes 8 len }
{
    let mut label = [number; 9];
    BigEndian::write_u64(&mut label[1..], len);
    label
}
