//! The command `checkbound`: whether a certificate proves its bound.
ghost use Rattle.std.specs.Prelude.{◌≡◌, ℕ, take};
ghost use Rattle.ports.specs.Outside.{BothTell, Cause};
ghost use Rattle.ports.specs.Desk.{Adds};
ghost use Rattle.tspwords.specs.Says.{SaysCheckbound};
ghost use Rattle.tspwords.specs.Program.{instance_word, cert_word};
ghost use Rattle.verification.specs.Transfers.{ReadsInstance};
ghost use Rattle.tspengine.specs.Calls.{Call, SlotsKept, on_desk};
ghost use Rattle.tspengine.specs.Bounding as bounding;
ghost use Rattle.tspengine.specs.Bounding.{ChecksBound, IsSaid};

use crate::bound_texts::answer_text;
use crate::publishing::refuse;
use crate::statuses::Status;
use onetree::{Answer, CheckError, answers_are_one, check};
use ports::{Desk, Inlet, Outlet, write_all};
use std::alloc::Global;
use tspinst::Instance;
use tspwords::CheckboundWords;
use verification::{Reading, Unread, read_instance};

/// Reads an instance and a certificate, and prints whether the certificate proves its bound.
pub(crate) fn checkbound<D: Desk>(alloc: Global, words: &CheckboundWords, desk: &mut D) -> Status
    ensures ends { (c : Call) → SaysCheckbound c.words words.now → SlotsKept c
        → ChecksBound result (on_desk (D.told desk.old) (D.told desk.new) c) }
    ensures reads { Cause (result ≡ Status.ReadFault) (D.read_faults desk.old) (D.read_faults desk.new) }
    ensures writes { Cause (result ≡ Status.WriteFault) (D.write_faults desk.old) (D.write_faults desk.new) }
{
    match read_instance(alloc, desk, &words.instance) {
        Ok(Reading::Instance(instance)) => judge(alloc, desk, &instance, &words.cert),
        Ok(Reading::Refused(refusal)) => refuse(alloc, desk, refusal),
        Err(Unread::Failed) => Status::ReadFault,
        Err(Unread::NoMemory) => Status::NoMemory,
    }
}

/// Binds the inlet of proofs, checks its bytes, and prints the answer. The desk has read the instance.
fn judge<D: Desk>(alloc: Global, desk: &mut D, instance: &Instance, path: &str) -> Status
    ensures ends { (c : Call) → path.now ≡ cert_word c.words → SlotsKept c
        → BothTell (ReadsInstance (instance_word c.words) instance.now) c.before.desk (D.told desk.old)
        → ChecksBound result (on_desk c.before.desk (D.told desk.new) c) }
    ensures reads { Cause (result ≡ Status.ReadFault) (D.read_faults desk.old) (D.read_faults desk.new) }
    ensures writes { Cause (result ≡ Status.WriteFault) (D.write_faults desk.old) (D.write_faults desk.new) }
{
    answers_are_one();
    let _known = instance.n();
    if desk.bind_in(Inlet::Proof, path).is_err() {
        return Status::ReadFault;
    }
    match check(alloc, instance, desk) {
        Ok(answer) => say(alloc, desk, answer),
        Err(CheckError::Failed) => Status::ReadFault,
        Err(CheckError::NoMemory) => Status::NoMemory,
    }
}

/// Prints an answer.
fn say<D: Desk>(alloc: Global, desk: &mut D, answer: Answer) -> Status
    ensures said { result ≡ bounding.answer_status answer
        → BothTell (Adds Outlet.Text (bounding.answer_text answer)) (D.told desk.old) (D.told desk.new) }
    ensures torn { result ≡ Status.WriteFault
        → (k : ℕ) × BothTell (Adds Outlet.Text (take k (bounding.answer_text answer))) (D.told desk.old) (D.told desk.new) }
    ensures silent { result ≡ Status.NoMemory → D.told desk.new ≡ D.told desk.old }
    ensures status { IsSaid result answer }
    ensures cause { Cause (result ≡ Status.WriteFault) (D.write_faults desk.old) (D.write_faults desk.new) }
    ensures same { D.read_faults desk.new ≡ D.read_faults desk.old }
{
    match answer_text(alloc, answer) {
        Ok(printed) => match write_all(desk, Outlet::Text, &printed) {
            Ok(()) => status_of(answer),
            Err(_) => Status::WriteFault,
        },
        Err(_) => Status::NoMemory,
    }
}

/// The status of an answer that is printed.
fn status_of(answer: Answer) -> Status
    ensures { result ≡ bounding.answer_status answer }
{
    match answer {
        Answer::Yes(_) => Status::Checked,
        Answer::No(_, _) => Status::BoundRefused,
    }
}
