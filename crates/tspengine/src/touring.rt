//! The command `tour`: the tour that a search would start with.
ghost use Rattle.std.specs.Prelude.{◌≡◌, ◌⊎◌, IfOk, string_bytes};
ghost use Rattle.ports.specs.Outside.{BothTell, Cause};
ghost use Rattle.tspwords.specs.Says.{SaysTour};
ghost use Rattle.tspwords.specs.Program.{instance_word};
ghost use Rattle.tspdef.specs.Instances as instances;
ghost use Rattle.verification.specs.Transfers.{ReadsInstance};
ghost use Rattle.tspengine.specs.Outcomes.{IsTouring};
ghost use Rattle.tspengine.specs.Calls.{Call, SlotsKept, on_desk};
ghost use Rattle.tspengine.specs.Touring.{Tours};

use crate::publishing::refuse;
use crate::statuses::Status;
use opening::find_opening;
use ports::{Desk, Outlet, write_all};
use std::alloc::{AllocError, Global};
use tourfmt::print;
use tspinst::Instance;
use tspwords::TourWords;
use verification::{Reading, Unread, read_instance};

/// Reads an instance, and prints a good tour of it.
pub(crate) fn tour<D: Desk>(alloc: Global, words: &TourWords, desk: &mut D) -> Status
    ensures ends { (c : Call) → SaysTour c.words words.now → SlotsKept c
        → Tours result (on_desk (D.told desk.old) (D.told desk.new) c) }
    ensures reads { Cause (result ≡ Status.ReadFault) (D.read_faults desk.old) (D.read_faults desk.new) }
    ensures writes { Cause (result ≡ Status.WriteFault) (D.write_faults desk.old) (D.write_faults desk.new) }
{
    match read_instance(alloc, desk, &words.instance) {
        Ok(Reading::Instance(instance)) => match tour_text(alloc, &instance, words.seed) {
            Ok(text) => print_tour(desk, &text),
            Err(_) => Status::NoMemory,
        },
        Ok(Reading::Refused(refusal)) => refuse(alloc, desk, refusal),
        Err(Unread::Failed) => Status::ReadFault,
        Err(Unread::NoMemory) => Status::NoMemory,
    }
}

/// The text of a good tour.
fn tour_text(alloc: Global, instance: &Instance, seed: u64) -> Result<String, AllocError>
    ensures { IfOk result (λ text. IsTouring instance.now (string_bytes text)) }
{
    let opening = find_opening(alloc, instance, seed)?;
    print(alloc, &opening.tour)
}

/// Prints the text of a tour of the instance that the desk has read.
fn print_tour<D: Desk>(desk: &mut D, text: &str) -> Status
    ensures ends { (c : Call) → (i : instances.Instance) → IsTouring i text.now → SlotsKept c
        → BothTell (ReadsInstance (instance_word c.words) i) c.before.desk (D.told desk.old)
        → Tours result (on_desk c.before.desk (D.told desk.new) c) }
    ensures status { (result ≡ Status.Toured) ⊎ (result ≡ Status.WriteFault) }
    ensures writes { Cause (result ≡ Status.WriteFault) (D.write_faults desk.old) (D.write_faults desk.new) }
    ensures same { D.read_faults desk.new ≡ D.read_faults desk.old }
{
    match write_all(desk, Outlet::Text, text.as_bytes()) {
        Ok(()) => Status::Toured,
        Err(_) => Status::WriteFault,
    }
}
