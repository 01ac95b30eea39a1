//! What the front of a slot says.
ghost use Rattle.std.specs.Prelude.{◌≡◌, ℕ, ◌+◌, ◌<◌, ◌≤◌, ◌↔◌, take, length, Some, None, IfOk, IfSome, IsErr, IsTrue};
ghost use Rattle.ports.specs.Outside.{WhereTold, Cause};
ghost use Rattle.ports.specs.Slots.{slot_of};
ghost use Rattle.slotstore.specs.Store.{valid_number};
ghost use Rattle.slotstore.specs.Crashing.{is_shut};
ghost use Rattle.slotstore.specs.Writing.{said_end};

use byteorder::{BigEndian, ByteOrder};
use ports::{Failed, Slots};

/// How many bytes stand before the body.
pub(crate) const FRONT: usize = 10;

/// The number of a slot, where it is whole.
pub(crate) fn valid_number<L: Slots>(slots: &mut L, slot: u8) -> Result<Option<u8>, Failed>
    requires { slot < 2 }
    ensures number { IfOk result (λ n. WhereTold (λ t. n ≡ valid_number (slot_of slot t).bytes) (L.told slots.old)) }
    ensures small { IfOk result (λ n. IfSome n (λ number. number ≤ 2)) }
    ensures told { L.told slots.new ≡ L.told slots.old }
    ensures past { L.past slots.new ≡ L.past slots.old }
    ensures cause { Cause (IsErr result) (L.faults slots.old) (L.faults slots.new) }
{
    let mut front = [0u8; FRONT];
    let len = read_front(slots, slot, &mut front)?;
    let Some(end) = said_end(&front[..len]) else {
        return Ok(None);
    };
    if reaches(slots, slot, end)? {
        Ok(Some(front[1]))
    } else {
        Ok(None)
    }
}

/// Whether a slot has a gate that is closed.
pub(crate) fn is_shut<L: Slots>(slots: &mut L, slot: u8) -> Result<bool, Failed>
    requires { slot < 2 }
    ensures shut { IfOk result (λ b. WhereTold (λ t. b ≡ is_shut (slot_of slot t).bytes) (L.told slots.old)) }
    ensures told { L.told slots.new ≡ L.told slots.old }
    ensures past { L.past slots.new ≡ L.past slots.old }
    ensures cause { Cause (IsErr result) (L.faults slots.old) (L.faults slots.new) }
{
    let mut gate = [0u8; 1];
    let count = slots.read_at(slot, 0, &mut gate)?;
    Ok(count > 0 && gate[0] != 1)
}

/// Reads the front of a slot, as far as the slot or the buffer goes, and says how much that is.
pub(crate) fn read_front<L: Slots>(
    slots: &mut L,
    slot: u8,
    front: &mut [u8],
) -> Result<usize, Failed>
    requires slot { slot < 2 }
    requires size { length front.old ≤ 10 }
    ensures within { IfOk result (λ len. len ≤ length front.old) }
    ensures bytes { IfOk result (λ len. WhereTold (λ t. take len front.new ≡ take (length front.old) (slot_of slot t).bytes) (L.told slots.old)) }
    ensures told { L.told slots.new ≡ L.told slots.old }
    ensures past { L.past slots.new ≡ L.past slots.old }
    ensures cause { Cause (IsErr result) (L.faults slots.old) (L.faults slots.new) }
{
    let mut done = 0;
    while done < front.len() {
        let count = slots.read_at(slot, done as u64, &mut front[done..])?;
        if count == 0 {
            return Ok(done);
        }
        done += count;
    }
    Ok(done)
}

/// Where a slot with this front would end, if its gate is open, its number is one and that place can be named.
pub(crate) fn said_end(front: &[u8]) -> Option<u64>
    requires { length front.now ≤ 10 }
    ensures end { IfSome result (λ end. (length front.now ≡ 10) × (said_end front.now ≡ Some end)) }
    ensures none { result ≡ None → length front.now ≡ 10 → said_end front.now ≡ None }
{
    if front.len() < FRONT || front[0] != 1 || front[1] > 2 {
        return None;
    }
    BigEndian::read_u64(&front[2..]).checked_add(10)
}

// Whether a slot has this many bytes.
fn reaches<L: Slots>(slots: &mut L, slot: u8, end: u64) -> Result<bool, Failed>
    requires slot { slot < 2 }
    requires some { 0 < end }
    ensures reaches { IfOk result (λ r. WhereTold (λ t. IsTrue r ↔ (end ≤ length (slot_of slot t).bytes)) (L.told slots.old)) }
    ensures told { L.told slots.new ≡ L.told slots.old }
    ensures past { L.past slots.new ≡ L.past slots.old }
    ensures cause { Cause (IsErr result) (L.faults slots.old) (L.faults slots.new) }
{
    let mut last = [0u8; 1];
    Ok(slots.read_at(slot, end - 1, &mut last)? > 0)
}
