//! The step from an instance to the answer on a proof.
ghost use Rattle.std.specs.Prelude.{◌≡◌, ◌≢◌, ℕ, ◌⊎◌, take};
ghost use Rattle.ports.specs.Outside.{BothTell, Cause};
ghost use Rattle.ports.specs.Desk.{Adds};
ghost use Rattle.verification.specs.Answers as answers;
ghost use Rattle.verification.specs.Judging.{Judges, IsSayStatus};

use crate::statuses::VerifyStatus;
use crate::texts::answer_text;
use certcheck::{Answer, CheckError, check};
use certdef::accepted_text_is_below;
use ports::{Desk, Inlet, Outlet, write_all};
use std::alloc::Global;
use tspinst::Instance;

/// Binds the inlet of proofs, checks its bytes, and prints the answer.
pub(crate) fn judge<D: Desk>(
    alloc: Global,
    desk: &mut D,
    instance: &Instance,
    path: &str,
) -> VerifyStatus
    ensures desk { BothTell (Judges instance.now path.now result) (D.told desk.old) (D.told desk.new) }
    ensures status { (result ≢ VerifyStatus.Usage) × (result ≢ VerifyStatus.BadInstance) }
    ensures reads { Cause (result ≡ VerifyStatus.ReadFault) (D.read_faults desk.old) (D.read_faults desk.new) }
    ensures writes { Cause (result ≡ VerifyStatus.WriteFault) (D.write_faults desk.old) (D.write_faults desk.new) }
{
    accepted_text_is_below();
    let _known = instance.n();
    if desk.bind_in(Inlet::Proof, path).is_err() {
        return VerifyStatus::ReadFault;
    }
    match check(alloc, instance, desk) {
        Ok(answer) => say(alloc, desk, answer),
        Err(CheckError::Failed) => VerifyStatus::ReadFault,
        Err(CheckError::NoMemory) => VerifyStatus::NoMemory,
    }
}

/// Prints an answer.
fn say<D: Desk>(alloc: Global, desk: &mut D, answer: Answer) -> VerifyStatus
    ensures said { result ≡ answers.answer_status answer
        → BothTell (Adds Outlet.Text (answers.answer_text answer)) (D.told desk.old) (D.told desk.new) }
    ensures torn { result ≡ VerifyStatus.WriteFault
        → (k : ℕ) × BothTell (Adds Outlet.Text (take k (answers.answer_text answer))) (D.told desk.old) (D.told desk.new) }
    ensures silent { result ≡ VerifyStatus.NoMemory → D.told desk.new ≡ D.told desk.old }
    ensures status { IsSayStatus result answer }
    ensures cause { Cause (result ≡ VerifyStatus.WriteFault) (D.write_faults desk.old) (D.write_faults desk.new) }
    ensures same { D.read_faults desk.new ≡ D.read_faults desk.old }
{
    match answer_text(alloc, answer) {
        Ok(printed) => match write_all(desk, Outlet::Text, &printed) {
            Ok(()) => status_of(answer),
            Err(_) => VerifyStatus::WriteFault,
        },
        Err(_) => VerifyStatus::NoMemory,
    }
}

/// The status of an answer that is printed.
fn status_of(answer: Answer) -> VerifyStatus
    ensures { result ≡ answers.answer_status answer }
{
    match answer {
        Answer::Yes { length, bound } => {
            if bound == length {
                VerifyStatus::Verified
            } else {
                VerifyStatus::Within
            }
        }
        Answer::No(_, _) => VerifyStatus::Refused,
    }
}
