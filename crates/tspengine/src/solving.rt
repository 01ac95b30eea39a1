//! The command `solve`: a search, and what it found written down.
ghost use Rattle.std.specs.Prelude.{◌≡◌, ◌≢◌, ◌≤◌, string_bytes};
ghost use Rattle.ports.specs.Outside.{BothTell, WhereTold, Cause};
ghost use Rattle.slotstore.specs.Standing.{StandsFor};
ghost use Rattle.tspdef.specs.Instances as instances;
ghost use Rattle.tspwords.specs.Program.{instance_word, restart_word};
ghost use Rattle.tspwords.specs.Says.{SaysSolve};
ghost use Rattle.verification.specs.Transfers.{ReadsInstance};
ghost use Rattle.tspengine.specs.Outcomes.{IsOutcome};
ghost use Rattle.tspengine.specs.Calls.{Call, on_desk, on_slots, ending_with};
ghost use Rattle.tspengine.specs.Starts.{Start, Begins};
ghost use Rattle.tspengine.specs.Begun.{IsSearchAt};
ghost use Rattle.tspengine.specs.Searches.{start_in};
ghost use Rattle.tspengine.specs.Solving.{IsBegun, IsSearched, Solves, IsRefusedCall, IsPublished};

use crate::crew::Crew;
use crate::outcomes::{Closed, Outcome, outcome_of};
use crate::publishing::{publish, refuse};
use crate::searching::search;
use crate::starting::{Begun, Halt, Search, begin};
use crate::statuses::Status;
use crate::texts::restart_text;
use ports::{Desk, Gate, Outlet, Posts, Slots, write_all};
use slotstore::Store;
use std::alloc::Global;
use std::sync::Wait;
use std::thread::Threads;
use tspinst::Instance;
use tspwords::Solve;
use verification::{Reading, Unread, read_instance};

/// Reads an instance, searches, and writes down what was found.
pub(crate) fn solve<R: Threads + Wait + Sync, D: Desk, L: Slots, P: Posts + Sync, G: Gate + Sync>(
    crew: &Crew<'_, R, P, G>,
    alloc: Global,
    words: &Solve,
    desk: &mut D,
    slots: &mut L,
) -> Status
    requires few { words.now.budget ≤ 65536 }
    requires some_grunts { 1 ≤ words.now.grunts }
    requires few_grunts { words.now.grunts ≤ 64 }
    ensures ends { (c : Call) → SaysSolve c.words words.now
        → Solves result (on_slots (L.told slots.old) (L.past slots.old) (L.told slots.new) (L.past slots.new) (on_desk (D.told desk.old) (D.told desk.new) c)) }
    ensures reads { Cause (result ≡ Status.ReadFault) (D.read_faults desk.old) (D.read_faults desk.new) }
    ensures writes { Cause (result ≡ Status.WriteFault) (D.write_faults desk.old) (D.write_faults desk.new) }
    ensures store { Cause (result ≡ Status.StoreFault) (L.faults slots.old) (L.faults slots.new) }
{
    match read_instance(alloc, desk, &words.instance) {
        Ok(Reading::Instance(instance)) => {
            solve_instance(crew, alloc, words, &instance, desk, slots)
        },
        Ok(Reading::Refused(refusal)) => refuse(alloc, desk, refusal),
        Err(Unread::Failed) => Status::ReadFault,
        Err(Unread::NoMemory) => Status::NoMemory,
    }
}

/// Binds the slots and begins the store on them, the instance being read, and goes on with it.
fn solve_instance<R: Threads + Wait + Sync, D: Desk, L: Slots, P: Posts + Sync, G: Gate + Sync>(
    crew: &Crew<'_, R, P, G>,
    alloc: Global,
    words: &Solve,
    instance: &Instance,
    desk: &mut D,
    slots: &mut L,
) -> Status
    requires few { words.now.budget ≤ 65536 }
    requires some_grunts { 1 ≤ words.now.grunts }
    requires few_grunts { words.now.grunts ≤ 64 }
    ensures ends { (c : Call) → SaysSolve c.words words.now
        → BothTell (ReadsInstance (instance_word c.words) instance.now) c.before.desk (D.told desk.old)
        → c.before.slots ≡ L.told slots.old
        → c.before.moments ≡ L.past slots.old
        → Solves result (ending_with (D.told desk.new) (L.told slots.new) (L.past slots.new) c) }
    ensures read { result ≢ Status.ReadFault }
    ensures reads { D.read_faults desk.new ≡ D.read_faults desk.old }
    ensures writes { Cause (result ≡ Status.WriteFault) (D.write_faults desk.old) (D.write_faults desk.new) }
    ensures store { Cause (result ≡ Status.StoreFault) (L.faults slots.old) (L.faults slots.new) }
{
    if slots.bind(&words.restart).is_err() {
        return Status::StoreFault;
    }
    match Store::begin(slots) {
        Ok(mut store) => { solve_on(crew, alloc, words, instance, desk, slots, &mut store) },
        Err(_) => Status::StoreFault,
    }
}

/// Begins the search as the words say, the store being begun, or tells why the slots hold no body to go on from.
fn solve_on<R: Threads + Wait + Sync, D: Desk, L: Slots, P: Posts + Sync, G: Gate + Sync>(
    crew: &Crew<'_, R, P, G>,
    alloc: Global,
    words: &Solve,
    instance: &Instance,
    desk: &mut D,
    slots: &mut L,
    store: &mut Store,
) -> Status
    requires few { words.now.budget ≤ 65536 }
    requires some_grunts { 1 ≤ words.now.grunts }
    requires few_grunts { words.now.grunts ≤ 64 }
    requires stands { WhereTold (StandsFor store.old) (L.told slots.old) }
    ensures ends { (c : Call) → SaysSolve c.words words.now
        → BothTell (ReadsInstance (instance_word c.words) instance.now) c.before.desk (D.told desk.old)
        → BothTell (IsBegun (restart_word c.words) c.before.moments (L.past slots.old)) c.before.slots (L.told slots.old)
        → Solves result (ending_with (D.told desk.new) (L.told slots.new) (L.past slots.new) c) }
    ensures read { result ≢ Status.ReadFault }
    ensures reads { D.read_faults desk.new ≡ D.read_faults desk.old }
    ensures writes { Cause (result ≡ Status.WriteFault) (D.write_faults desk.old) (D.write_faults desk.new) }
    ensures store { Cause (result ≡ Status.StoreFault) (L.faults slots.old) (L.faults slots.new) }
{
    match begin(alloc, words, instance, slots, store) {
        Ok(Begun::Search(search)) => {
            solve_by(crew, alloc, words, instance, search, desk, slots, store)
        },
        Ok(Begun::Refused(refusal, line)) => refuse_body(alloc, desk, refusal, line),
        Err(halt) => halted(halt),
    }
}

/// How a run ends whose search does not go on.
fn halted(halt: Halt) -> Status
    ensures fault { halt ≡ Halt.StoreFault → result ≡ Status.StoreFault }
    ensures memory { halt ≡ Halt.NoMemory → result ≡ Status.NoMemory }
{
    match halt {
        Halt::StoreFault => Status::StoreFault,
        Halt::NoMemory => Status::NoMemory,
    }
}

/// Prints the refusal of the body that the slots hold.
fn refuse_body<D: Desk>(alloc: Global, desk: &mut D, refusal: u32, line: u64) -> Status
    ensures ends { IsRefusedCall refusal line result (D.told desk.old) (D.told desk.new) }
    ensures reads { D.read_faults desk.new ≡ D.read_faults desk.old }
    ensures writes { Cause (result ≡ Status.WriteFault) (D.write_faults desk.old) (D.write_faults desk.new) }
{
    let Ok(text) = restart_text(alloc, refusal, line) else {
        return Status::NoMemory;
    };
    match write_all(desk, Outlet::Text, &text) {
        Ok(()) => Status::BadRestart,
        Err(_) => Status::WriteFault,
    }
}

/// Searches, and writes down what was found.
fn solve_by<R: Threads + Wait + Sync, D: Desk, L: Slots, P: Posts + Sync, G: Gate + Sync>(
    crew: &Crew<'_, R, P, G>,
    alloc: Global,
    words: &Solve,
    instance: &Instance,
    begun: Search,
    desk: &mut D,
    slots: &mut L,
    store: &mut Store,
) -> Status
    requires stands { WhereTold (StandsFor store.old) (L.told slots.old) }
    requires begun { IsSearchAt instance.now words.now.budget words.now.gap begun }
    ensures ends { (c : Call) → SaysSolve c.words words.now
        → BothTell (ReadsInstance (instance_word c.words) instance.now) c.before.desk (D.told desk.old)
        → BothTell (IsBegun (restart_word c.words) c.before.moments (L.past slots.old)) c.before.slots (L.told slots.old)
        → Begins c instance.now (start_in begun.boss)
        → Solves result (ending_with (D.told desk.new) (L.told slots.new) (L.past slots.new) c) }
    ensures read { result ≢ Status.ReadFault }
    ensures reads { D.read_faults desk.new ≡ D.read_faults desk.old }
    ensures writes { Cause (result ≡ Status.WriteFault) (D.write_faults desk.old) (D.write_faults desk.new) }
    ensures store { Cause (result ≡ Status.StoreFault) (L.faults slots.old) (L.faults slots.new) }
{
    let boss = match search(crew, alloc, instance, begun, slots, store, words.seed) {
        Ok(boss) => boss,
        Err(halt) => return halted(halt),
    };
    match outcome_of(alloc, &boss) {
        Ok(outcome) => finish(words, desk, slots, store, &outcome),
        Err(_) => Status::NoMemory,
    }
}

/// Writes the proof and prints the tour, or saves the body and prints how far the search came.
fn finish<D: Desk, L: Slots>(
    words: &Solve,
    desk: &mut D,
    slots: &mut L,
    store: &mut Store,
    outcome: &Outcome,
) -> Status
    requires { WhereTold (StandsFor store.old) (L.told slots.old) }
    ensures ends { (c : Call) → (i : instances.Instance) → (s : Start) → SaysSolve c.words words.now → IsOutcome i words.now.budget words.now.gap s outcome.now
        → BothTell (ReadsInstance (instance_word c.words) i) c.before.desk (D.told desk.old)
        → IsSearched c i s (L.told slots.old) (L.past slots.old)
        → Begins c i s
        → Solves result (ending_with (D.told desk.new) (L.told slots.new) (L.past slots.new) c) }
    ensures read { result ≢ Status.ReadFault }
    ensures reads { D.read_faults desk.new ≡ D.read_faults desk.old }
    ensures writes { Cause (result ≡ Status.WriteFault) (D.write_faults desk.old) (D.write_faults desk.new) }
    ensures store { Cause (result ≡ Status.StoreFault) (L.faults slots.old) (L.faults slots.new) }
{
    match outcome {
        Outcome::Closed(closed) => publish_proof(words, desk, closed),
        Outcome::Stopped { body, printed } => {
            if store.save(slots, body).is_err() {
                return Status::StoreFault;
            }
            match write_all(desk, Outlet::Text, printed) {
                Ok(()) => Status::Stopped,
                Err(_) => Status::WriteFault,
            }
        }
    }
}

/// Writes the proof and prints the tour. It is a shortest one where the bound is its length.
fn publish_proof<D: Desk>(words: &Solve, desk: &mut D, closed: &Closed) -> Status
    ensures ends { IsPublished (string_bytes words.now.proof) closed.now result (D.told desk.old) (D.told desk.new) }
    ensures reads { D.read_faults desk.new ≡ D.read_faults desk.old }
    ensures writes { Cause (result ≡ Status.WriteFault) (D.write_faults desk.old) (D.write_faults desk.new) }
{
    match publish(desk, &words.proof, &closed.proof, &closed.printed) {
        Ok(()) if closed.bound == closed.length => Status::Optimal,
        Ok(()) => Status::Within,
        Err(_) => Status::WriteFault,
    }
}
