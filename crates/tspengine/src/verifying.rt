//! The command `verify`: the verifier's own step.
ghost use Rattle.std.specs.Prelude.{◌≡◌};
ghost use Rattle.ports.specs.Outside.{Cause};
ghost use Rattle.tspwords.specs.Says.{SaysVerify};
ghost use Rattle.tspengine.specs.Calls.{Call, SlotsKept, on_desk};
ghost use Rattle.tspengine.specs.Verifying.{Verifies};

use crate::statuses::{Status, status_of};
use ports::Desk;
use std::alloc::Global;
use tspwords::VerifyWords;

/// Reads an instance and a proof, and prints whether the proof is one for the instance.
pub(crate) fn verify<D: Desk>(alloc: Global, words: &VerifyWords, desk: &mut D) -> Status
    ensures ends { (c : Call) → SaysVerify c.words words.now → SlotsKept c
        → Verifies result (on_desk (D.told desk.old) (D.told desk.new) c) }
    ensures reads { Cause (result ≡ Status.ReadFault) (D.read_faults desk.old) (D.read_faults desk.new) }
    ensures writes { Cause (result ≡ Status.WriteFault) (D.write_faults desk.old) (D.write_faults desk.new) }
{
    status_of(verification::verify(alloc, words, desk))
}
