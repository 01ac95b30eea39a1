//! The command `bound`: a lower bound of one-trees, with its certificate.
ghost use Rattle.std.specs.Prelude.{◌≡◌, ◌⊎◌, IfOk, ℤ, neg_ℤ, pos, ◌<ℤ◌};
ghost use Rattle.ports.specs.Outside.{BothTell, Cause};
ghost use Rattle.tspdef.specs.Bounds.{scale};
ghost use Rattle.onetree.specs.OneTrees.{AreDuals, IsHeldKarp};
ghost use Rattle.tspwords.specs.Says.{SaysBound};
ghost use Rattle.tspwords.specs.Program.{instance_word, cert_word, steps_of};
ghost use Rattle.verification.specs.Transfers.{ReadsInstance};
ghost use Rattle.tspengine.specs.Calls.{Call, SlotsKept, on_desk};
ghost use Rattle.tspengine.specs.Bounding.{Bounds, IsRaisedBy};

use crate::bound_texts::bound_text;
use crate::publishing::refuse;
use crate::statuses::Status;
use onetree::{WriteError, ascend, bound_of, tours_are_one_trees, write, written_is_accepted};
use ports::{Desk, Outlet, write_all};
use std::alloc::{AllocError, Global};
use tspinst::Instance;
use tspwords::BoundWords;
use verification::{Reading, Unread, read_instance};

/// Duals, and the line of the bound that they prove.
#[derive(Drop)]
pub(crate) struct Raised {
    duals: Vec<i64>,
    line: Vec<u8>,
}

/// Reads an instance, raises duals in so many steps, writes their certificate and prints the bound.
pub(crate) fn bound<D: Desk>(alloc: Global, words: &BoundWords, desk: &mut D) -> Status
    ensures ends { (c : Call) → SaysBound c.words words.now → SlotsKept c
        → Bounds result (on_desk (D.told desk.old) (D.told desk.new) c) }
    ensures reads { Cause (result ≡ Status.ReadFault) (D.read_faults desk.old) (D.read_faults desk.new) }
    ensures writes { Cause (result ≡ Status.WriteFault) (D.write_faults desk.old) (D.write_faults desk.new) }
{
    match read_instance(alloc, desk, &words.instance) {
        Ok(Reading::Instance(instance)) => match raise_duals(alloc, &instance, words.steps) {
            Ok(raised) => certify(alloc, desk, &instance, &raised, &words.cert),
            Err(_) => Status::NoMemory,
        },
        Ok(Reading::Refused(refusal)) => refuse(alloc, desk, refusal),
        Err(Unread::Failed) => Status::ReadFault,
        Err(Unread::NoMemory) => Status::NoMemory,
    }
}

/// Duals that so many steps raise. All memory for the line is taken before anything is written.
fn raise_duals(alloc: Global, instance: &Instance, steps: u32) -> Result<Raised, AllocError>
    ensures raised { IfOk result (IsRaisedBy instance.now steps) }
    ensures duals { IfOk result (λ r. AreDuals instance.now.n r.duals.items) }
    ensures some { IfOk result (λ r. (h : ℤ) → IsHeldKarp instance.now r.duals.items h → neg_ℤ (pos scale) <ℤ h) }
{
    let duals = ascend(alloc, instance, steps)?;
    let bound = bound_of(alloc, instance, &duals)?;
    let line = bound_text(alloc, bound)?;
    Ok(Raised { duals, line })
}

/// Binds the outlet of proofs, writes the certificate of the duals, and prints their bound. The desk has read the instance.
fn certify<D: Desk>(
    alloc: Global,
    desk: &mut D,
    instance: &Instance,
    raised: &Raised,
    path: &str,
) -> Status
    requires duals { AreDuals instance.now.n raised.now.duals.items }
    requires some { (h : ℤ) → IsHeldKarp instance.now raised.now.duals.items h → neg_ℤ (pos scale) <ℤ h }
    ensures ends { (c : Call) → IsRaisedBy instance.now (steps_of c.words) raised.now → path.now ≡ cert_word c.words → SlotsKept c
        → BothTell (ReadsInstance (instance_word c.words) instance.now) c.before.desk (D.told desk.old)
        → Bounds result (on_desk c.before.desk (D.told desk.new) c) }
    ensures status { (result ≡ Status.Bounded) ⊎ (result ≡ Status.WriteFault) ⊎ (result ≡ Status.NoMemory) }
    ensures writes { Cause (result ≡ Status.WriteFault) (D.write_faults desk.old) (D.write_faults desk.new) }
    ensures same { D.read_faults desk.new ≡ D.read_faults desk.old }
{
    tours_are_one_trees();
    written_is_accepted();
    let _known = instance.n();
    if desk.bind_out(Outlet::Proof, path).is_err() {
        return Status::WriteFault;
    }
    match write(alloc, desk, instance, &raised.duals) {
        Ok(_) => match write_all(desk, Outlet::Text, &raised.line) {
            Ok(()) => Status::Bounded,
            Err(_) => Status::WriteFault,
        },
        Err(WriteError::NoMemory) => Status::NoMemory,
        Err(WriteError::Failed) => Status::WriteFault,
    }
}
