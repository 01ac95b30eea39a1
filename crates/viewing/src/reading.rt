//! The two files that a call reads.
ghost use Rattle.std.specs.Prelude.{◌≡◌, ℕ, IfOk, IsErrOf, OnErr};
ghost use Rattle.ports.specs.Outside.{BothTell, Cause};
ghost use Rattle.verification.specs.Transfers.{TouchesInstance, TouchesProof};
ghost use Rattle.viewing.specs.Readings.{IsReadingOf, ReadsText, AreMappedIn};

use coordinates::Mapped;
use ports::{Desk, Inlet, read_to_end};
use std::alloc::Global;
use tspinst::Refusal;

/// How many bytes the text of an instance may have.
const MOST_BYTES: usize = 0x400_0000;

/// More bytes than a text of a proof can have in memory.
const NO_END: usize = 1 << 62;

/// What the bytes of the instance are.
#[derive(Drop)]
pub(crate) enum Reading {
    Mapped(Mapped),
    Refused(Refusal),
}

/// Why bytes were not read.
#[derive(Clone, Copy, Debug, PartialEq, Eq)]
pub(crate) enum Unread {
    /// They could not be opened or read.
    Failed,
    /// Memory ran out.
    NoMemory,
}

/// Binds the inlet of the instance, and reads that with its points.
pub(crate) fn read_mapped<D: Desk>(
    alloc: Global,
    desk: &mut D,
    path: &str,
) -> Result<Reading, Unread>
    ensures reading { IfOk result (λ r. BothTell (IsReadingOf path.now r) (D.told desk.old) (D.told desk.new)) }
    ensures points { IfOk result AreMappedIn }
    ensures unread { OnErr result (BothTell (TouchesInstance path.now) (D.told desk.old) (D.told desk.new)) }
    ensures cause { Cause (IsErrOf result Unread.Failed) (D.read_faults desk.old) (D.read_faults desk.new) }
    ensures same { D.write_faults desk.new ≡ D.write_faults desk.old }
{
    if desk.bind_in(Inlet::Instance, path).is_err() {
        return Err(Unread::Failed);
    }
    match read_to_end(alloc, desk, Inlet::Instance, MOST_BYTES) {
        Ok(bytes) => match coordinates::read(alloc, &bytes) {
            Ok(mapped) => Ok(Reading::Mapped(mapped)),
            Err(coordinates::ReadError::Refused(refusal)) => Ok(Reading::Refused(refusal)),
            Err(coordinates::ReadError::NoMemory) => Err(Unread::NoMemory),
        },
        Err(ports::ReadError::TooLong) => Ok(Reading::Refused(Refusal::TooLong)),
        Err(ports::ReadError::Failed) => Err(Unread::Failed),
        Err(ports::ReadError::NoMemory) => Err(Unread::NoMemory),
    }
}

/// Binds the inlet of proofs, and reads all of it.
pub(crate) fn read_text<D: Desk>(alloc: Global, desk: &mut D, path: &str) -> Result<Vec<u8>, Unread>
    ensures reading { IfOk result (λ bytes. BothTell (ReadsText path.now bytes.items) (D.told desk.old) (D.told desk.new)) }
    ensures unread { OnErr result (BothTell (TouchesProof path.now) (D.told desk.old) (D.told desk.new)) }
    ensures cause { Cause (IsErrOf result Unread.Failed) (D.read_faults desk.old) (D.read_faults desk.new) }
    ensures same { D.write_faults desk.new ≡ D.write_faults desk.old }
{
    if desk.bind_in(Inlet::Proof, path).is_err() {
        return Err(Unread::Failed);
    }
    match read_to_end(alloc, desk, Inlet::Proof, NO_END) {
        Ok(bytes) => Ok(bytes),
        Err(ports::ReadError::Failed) => Err(Unread::Failed),
        // so many bytes have no room in memory
        Err(ports::ReadError::TooLong) => Err(Unread::NoMemory),
        Err(ports::ReadError::NoMemory) => Err(Unread::NoMemory),
    }
}
