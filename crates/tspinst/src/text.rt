//! Whole texts, from bytes and from a desk.

ghost use Rattle.std.specs.Prelude.{◌≡◌, length, IfOk, IsErrOf};
ghost use Rattle.ports.specs.Outside.{BothTell, Cause};
ghost use Rattle.tspinst.specs.Texts.{outcome};
ghost use Rattle.tspinst.specs.Views.{IsRead};
ghost use Rattle.tspinst.specs.Reads.{Answers, Refuses, TakesFront, IfRefused};

use crate::reading::State;
use crate::refusals::{ReadError, Refusal};
use crate::table::Instance;
use ports::{Desk, Inlet, read_to_end};
use std::alloc::Global;

/// How many bytes a text may have.
const MOST_BYTES: usize = 0x400_0000;

/// What a text says, or its first refusal.
#[tactic(auto, using(crate::proofs::Shrinking::outcomes))]
fn read_text(alloc: Global, bytes: &[u8]) -> Result<Instance, ReadError>
    ensures { IsRead result (outcome bytes.now) }
{
    if bytes.len() > MOST_BYTES {
        return Err(ReadError::Refused(Refusal::TooLong));
    }
    State::read(alloc, bytes)
}

/// Reads the instance whose text is left at the inlet of that name.
///
/// The inlet is read to its end first, or to one byte past 2^26. Of each byte string exactly one holds: it is the text
/// of one instance, or it has one first refusal.
///
/// # Errors
///
/// `Refused` with the first refusal of the text, `Failed` where the desk failed, `NoMemory` where memory ran out.
pub fn read<D: Desk>(alloc: Global, desk: &mut D) -> Result<Instance, ReadError>
    ensures instance { IfOk result (λ i. BothTell (Answers i) (D.told desk.old) (D.told desk.new)) }
    ensures refused { IfRefused result (λ r. BothTell (Refuses r) (D.told desk.old) (D.told desk.new)) }
    ensures taken { BothTell TakesFront (D.told desk.old) (D.told desk.new) }
    ensures cause { Cause (IsErrOf result ReadError.Failed) (D.read_faults desk.old) (D.read_faults desk.new) }
    ensures same { D.write_faults desk.new ≡ D.write_faults desk.old }
{
    match read_to_end(alloc, desk, Inlet::Instance, MOST_BYTES) {
        Ok(bytes) => read_text(alloc, &bytes),
        Err(ports::ReadError::TooLong) => Err(ReadError::Refused(Refusal::TooLong)),
        Err(ports::ReadError::Failed) => Err(ReadError::Failed),
        Err(ports::ReadError::NoMemory) => Err(ReadError::NoMemory),
    }
}
