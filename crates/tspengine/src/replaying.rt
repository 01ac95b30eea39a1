//! The command `replay`: a tape of events, answered by a boss.
ghost use Rattle.std.specs.Prelude.{◌≡◌, ◌≤◌};
ghost use Rattle.ports.specs.Outside.{BothTell, Cause};
ghost use Rattle.tspwords.specs.Says.{SaysReplay};
ghost use Rattle.tspengine.specs.Calls.{Call, SlotsKept, on_desk};
ghost use Rattle.tspengine.specs.Playing.{IsPlayStatus};
ghost use Rattle.tspengine.specs.Replaying.{Replays, IsReplay};

use crate::playing::{begin, play};
use crate::publishing::refuse;
use crate::statuses::Status;
use bossx::{Boss, events_are_charged};
use ports::{Desk, Inlet};
use std::alloc::Global;
use tspwords::ReplayWords;
use verification::{Reading, Unread, read_instance};

/// Reads an instance, and plays a tape over a boss of it.
pub(crate) fn replay<D: Desk>(alloc: Global, words: &ReplayWords, desk: &mut D) -> Status
    requires few { words.now.budget ≤ 65536 }
    requires some_grunts { 1 ≤ words.now.grunts }
    requires few_grunts { words.now.grunts ≤ 64 }
    ensures ends { (c : Call) → SaysReplay c.words words.now → SlotsKept c
        → Replays result (on_desk (D.told desk.old) (D.told desk.new) c) }
    ensures reads { Cause (result ≡ Status.ReadFault) (D.read_faults desk.old) (D.read_faults desk.new) }
    ensures writes { Cause (result ≡ Status.WriteFault) (D.write_faults desk.old) (D.write_faults desk.new) }
{
    events_are_charged();
    match read_instance(alloc, desk, &words.instance) {
        Ok(Reading::Instance(instance)) => match begin(
            alloc,
            &instance,
            words.budget,
            words.grunts,
        ) {
            Ok(boss) => play_from(alloc, boss, &words.tape, desk),
            Err(_) => Status::NoMemory,
        },
        Ok(Reading::Refused(refusal)) => refuse(alloc, desk, refusal),
        Err(Unread::Failed) => Status::ReadFault,
        Err(Unread::NoMemory) => Status::NoMemory,
    }
}

/// Binds the inlet of proofs to the path of a tape, and plays it.
fn play_from<D: Desk>(alloc: Global, boss: Boss, path: &str, desk: &mut D) -> Status
    ensures ends { BothTell (IsReplay boss path.now result) (D.told desk.old) (D.told desk.new) }
    ensures status { IsPlayStatus result }
    ensures reads { Cause (result ≡ Status.ReadFault) (D.read_faults desk.old) (D.read_faults desk.new) }
    ensures writes { Cause (result ≡ Status.WriteFault) (D.write_faults desk.old) (D.write_faults desk.new) }
{
    match desk.bind_in(Inlet::Proof, path) {
        Ok(()) => play(alloc, boss, desk),
        Err(_) => Status::ReadFault,
    }
}
