//! Steps that commands share.
ghost use Rattle.std.specs.Prelude.{◌≡◌, ◌⊎◌, ℕ, take, IsErr, OnErr, OnOk};
ghost use Rattle.ports.specs.Outside.{BothTell, Cause};
ghost use Rattle.ports.specs.Desk.{Adds};
ghost use Rattle.verification.specs.Texts.{instance_text};
ghost use Rattle.tspengine.specs.Steps.{writes, prints, TearsWriting};

use crate::statuses::Status;
use ports::{Desk, Failed, Outlet, write_all};
use std::alloc::Global;
use tspinst::Refusal;
use verification::VerifyStatus;

/// Prints the first refusal of an instance's text.
pub(crate) fn refuse<D: Desk>(alloc: Global, desk: &mut D, refusal: Refusal) -> Status
    ensures refused { result ≡ Status.BadInstance
        → BothTell (Adds Outlet.Text (instance_text refusal)) (D.told desk.old) (D.told desk.new) }
    ensures torn { result ≡ Status.WriteFault
        → (k : ℕ) × BothTell (Adds Outlet.Text (take k (instance_text refusal))) (D.told desk.old) (D.told desk.new) }
    ensures silent { result ≡ Status.NoMemory → D.told desk.new ≡ D.told desk.old }
    ensures status { (result ≡ Status.BadInstance) ⊎ (result ≡ Status.WriteFault) ⊎ (result ≡ Status.NoMemory) }
    ensures cause { Cause (result ≡ Status.WriteFault) (D.write_faults desk.old) (D.write_faults desk.new) }
    ensures same { D.read_faults desk.new ≡ D.read_faults desk.old }
{
    match verification::refuse(alloc, desk, refusal) {
        VerifyStatus::BadInstance => Status::BadInstance,
        VerifyStatus::WriteFault => Status::WriteFault,
        _ => Status::NoMemory,
    }
}

/// Binds the outlet of proofs and writes a proof, and then a text. After an error fronts of them were written, of the text
/// only where the proof was written whole.
pub(crate) fn publish<D: Desk>(
    desk: &mut D,
    path: &str,
    proof: &[u8],
    printed: &[u8],
) -> Result<(), Failed>
    ensures all { OnOk result (BothTell (λ t u. u ≡ prints printed.now (writes path.now proof.now t)) (D.told desk.old) (D.told desk.new)) }
    ensures fronts { OnErr result (BothTell (TearsWriting path.now proof.now printed.now) (D.told desk.old) (D.told desk.new)) }
    ensures cause { Cause (IsErr result) (D.write_faults desk.old) (D.write_faults desk.new) }
    ensures same { D.read_faults desk.new ≡ D.read_faults desk.old }
{
    desk.bind_out(Outlet::Proof, path)?;
    write_all(desk, Outlet::Proof, proof)?;
    write_all(desk, Outlet::Text, printed)
}
