//! The first steps of whatever reads an instance.
ghost use Rattle.std.specs.Prelude.{◌≡◌, ℕ, ◌⊎◌, take, IfOk, IsErrOf, OnErr};
ghost use Rattle.ports.specs.Outside.{BothTell, Cause};
ghost use Rattle.ports.specs.Desk.{Adds};
ghost use Rattle.verification.specs.Texts as texts;
ghost use Rattle.verification.specs.Transfers.{TouchesInstance};
ghost use Rattle.verification.specs.Readings.{IsReadingOf, IsRefuseStatus};

use crate::statuses::VerifyStatus;
use crate::texts::instance_text;
use ports::{Desk, Inlet, Outlet, write_all};
use std::alloc::Global;
use tspinst::{Instance, ReadError, Refusal, read};

/// What the bytes of the instance are.
#[derive(Drop)]
pub enum Reading {
    Instance(Instance),
    Refused(Refusal),
}

/// Why the bytes of the instance were not read.
#[derive(Clone, Copy, Debug, PartialEq, Eq)]
pub enum Unread {
    /// The instance could not be opened or read.
    Failed,
    /// Memory ran out.
    NoMemory,
}

/// Binds the inlet of the instance, and reads it.
pub fn read_instance<D: Desk>(alloc: Global, desk: &mut D, path: &str) -> Result<Reading, Unread>
    ensures reading { IfOk result (λ r. BothTell (IsReadingOf path.now r) (D.told desk.old) (D.told desk.new)) }
    ensures unread { OnErr result (BothTell (TouchesInstance path.now) (D.told desk.old) (D.told desk.new)) }
    ensures cause { Cause (IsErrOf result Unread.Failed) (D.read_faults desk.old) (D.read_faults desk.new) }
    ensures same { D.write_faults desk.new ≡ D.write_faults desk.old }
{
    if desk.bind_in(Inlet::Instance, path).is_err() {
        return Err(Unread::Failed);
    }
    match read(alloc, desk) {
        Ok(instance) => Ok(Reading::Instance(instance)),
        Err(ReadError::Refused(refusal)) => Ok(Reading::Refused(refusal)),
        Err(ReadError::Failed) => Err(Unread::Failed),
        Err(ReadError::NoMemory) => Err(Unread::NoMemory),
    }
}

/// Prints the first refusal of an instance's text.
pub fn refuse<D: Desk>(alloc: Global, desk: &mut D, refusal: Refusal) -> VerifyStatus
    ensures refused { result ≡ VerifyStatus.BadInstance
        → BothTell (Adds Outlet.Text (texts.instance_text refusal)) (D.told desk.old) (D.told desk.new) }
    ensures torn { result ≡ VerifyStatus.WriteFault
        → (k : ℕ) × BothTell (Adds Outlet.Text (take k (texts.instance_text refusal))) (D.told desk.old) (D.told desk.new) }
    ensures silent { result ≡ VerifyStatus.NoMemory → D.told desk.new ≡ D.told desk.old }
    ensures status { IsRefuseStatus result }
    ensures cause { Cause (result ≡ VerifyStatus.WriteFault) (D.write_faults desk.old) (D.write_faults desk.new) }
    ensures same { D.read_faults desk.new ≡ D.read_faults desk.old }
{
    match instance_text(alloc, refusal) {
        Ok(printed) => match write_all(desk, Outlet::Text, &printed) {
            Ok(()) => VerifyStatus::BadInstance,
            Err(_) => VerifyStatus::WriteFault,
        },
        Err(_) => VerifyStatus::NoMemory,
    }
}
