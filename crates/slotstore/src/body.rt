//! Reading the body of a slot.
ghost use Rattle.std.specs.Prelude.{◌≡◌, ℕ, ◌<◌, ◌≤◌, length, Err, Option, IfOk};
ghost use Rattle.std.specs.declared.alloc.AllocError.{AllocError};
ghost use Rattle.ports.specs.Outside.{WhereTold, Cause};
ghost use Rattle.ports.specs.Slots.{slot_of};
ghost use Rattle.slotstore.specs.Loads.{body_to, items_of, valid_body};

use crate::header::{FRONT, read_front, said_end};
use ports::{Failed, Slots};
use std::alloc::{AllocError, Global};

/// How many bytes are read at once.
const PIECE: usize = 4096;

/// Why a body was not loaded.
#[derive(Clone, Copy, Debug, PartialEq, Eq)]
pub enum LoadError {
    /// A call of the slots failed.
    StoreFault,
    /// Memory ran out.
    NoMemory,
}

impl From<Failed> for LoadError {
    ghost use Rattle.slotstore.specs.declared.body.LoadError.TheVariants.{StoreFault};

    ghost from_gives = { λ _ e. e ≡ StoreFault };

    fn from(_: Failed) -> LoadError {
        LoadError::StoreFault
    }
}

impl From<AllocError> for LoadError {
    ghost use Rattle.slotstore.specs.declared.body.LoadError.TheVariants.{NoMemory};

    ghost from_gives = { λ _ e. e ≡ NoMemory };

    fn from(_: AllocError) -> LoadError {
        LoadError::NoMemory
    }
}

/// The body of a slot, if it is whole. Takes no more memory than a constant times what the slot holds, whatever length it says.
pub(crate) fn read_body<L: Slots>(
    alloc: Global,
    slots: &mut L,
    slot: u8,
) -> Result<Option<Vec<u8>>, LoadError>
    requires { slot < 2 }
    ensures body { IfOk result (λ body. WhereTold (λ t. items_of body ≡ valid_body (slot_of slot t).bytes) (L.told slots.old)) }
    ensures told { L.told slots.new ≡ L.told slots.old }
    ensures past { L.past slots.new ≡ L.past slots.old }
    ensures cause { Cause (result ≡ Err LoadError.StoreFault) (L.faults slots.old) (L.faults slots.new) }
{
    let mut front = [0u8; FRONT];
    let len = read_front(slots, slot, &mut front)?;
    let Some(end) = said_end(&front[..len]) else {
        return Ok(None);
    };
    read_to(alloc, slots, slot, end)
}

// What stands behind the front of a slot up to a place, if the slot reaches so far.
fn read_to<L: Slots>(
    alloc: Global,
    slots: &mut L,
    slot: u8,
    end: u64,
) -> Result<Option<Vec<u8>>, LoadError>
    requires slot { slot < 2 }
    requires front { 10 ≤ end }
    requires holds { WhereTold (λ t. 10 ≤ length (slot_of slot t).bytes) (L.told slots.old) }
    ensures body { IfOk result (λ body. WhereTold (λ t. items_of body ≡ body_to end (slot_of slot t).bytes) (L.told slots.old)) }
    ensures told { L.told slots.new ≡ L.told slots.old }
    ensures past { L.past slots.new ≡ L.past slots.old }
    ensures cause { Cause (result ≡ Err LoadError.StoreFault) (L.faults slots.old) (L.faults slots.new) }
{
    let mut body = Vec::new(alloc);
    let mut piece = [0u8; PIECE];
    let mut pos = FRONT as u64;
    while pos < end {
        let size = (end - pos).min(PIECE as u64) as usize;
        let count = slots.read_at(slot, pos, &mut piece[..size])?;
        if count == 0 {
            return Ok(None);
        }
        body.extend_from_slice(&piece[..count])?;
        pos += count as u64;
    }
    Ok(Some(body))
}
