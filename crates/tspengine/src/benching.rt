//! The command `bench`: a search of an instance that a seed draws.
ghost use Rattle.std.specs.Prelude.{◌≡◌, ◌≤◌, IfOk, string_bytes};
ghost use Rattle.ports.specs.Outside.{Cause};
ghost use Rattle.tspgen.specs.Points.{drawn};
ghost use Rattle.tspwords.specs.Says.{SaysBench};
ghost use Rattle.tspengine.specs.Calls.{Call, SlotsKept, on_desk};
ghost use Rattle.tspengine.specs.Benching.{Benches, IsBenchOutcome, IsFound};
ghost use Rattle.tspengine.specs.Outcomes.{IsProof};

use crate::outcomes::{Outcome, outcome_of};
use crate::publishing::publish;
use crate::starting::{Search, anew};
use crate::statuses::Status;
use bossx::Boss;
use cutpool::CutPool;
use grunt::LpWorker;
use ports::{Desk, OpenGate};
use std::alloc::{AllocError, Global};
use tspgen::make;
use tspinst::Instance;
use tspround::{alone, few_cities_end};
use tspwords::BenchWords;

/// Searches the instance that the words draw, writes what was found to their path, and prints its length.
pub(crate) fn bench<D: Desk>(alloc: Global, words: &BenchWords, desk: &mut D) -> Status
    requires many { 3 ≤ words.now.cities }
    requires few { words.now.cities ≤ 2000 }
    requires budget { words.now.budget ≤ 65536 }
    ensures ends { (c : Call) → SaysBench c.words words.now → SlotsKept c
        → Benches result (on_desk (D.told desk.old) (D.told desk.new) c) }
    ensures reads { D.read_faults desk.new ≡ D.read_faults desk.old }
    ensures writes { Cause (result ≡ Status.WriteFault) (D.write_faults desk.old) (D.write_faults desk.new) }
{
    match drawn_outcome(alloc, words) {
        Ok(outcome) => write_down(desk, words, &outcome),
        Err(_) => Status::NoMemory,
    }
}

/// What comes of the instance that the words draw.
fn drawn_outcome(alloc: Global, words: &BenchWords) -> Result<Outcome, AllocError>
    requires many { 3 ≤ words.now.cities }
    requires few { words.now.cities ≤ 2000 }
    requires budget { words.now.budget ≤ 65536 }
    ensures outcome { IfOk result (IsBenchOutcome (drawn words.now.seed words.now.cities) words.now.budget) }
    ensures small { words.now.cities ≤ 5 → 2047 ≤ words.now.budget → IfOk result IsProof }
{
    let instance = make(alloc, words.seed, words.cities)?;
    let boss = found(alloc, &instance, words.budget, words.seed)?;
    outcome_of(alloc, &boss)
}

/// A search from the opening tour to its end, in one go and without a gap.
fn found(alloc: Global, instance: &Instance, budget: u32, seed: u64) -> Result<Boss, AllocError>
    requires { budget ≤ 65536 }
    ensures { IfOk result (IsFound instance.now budget) }
{
    few_cities_end();
    let Search { boss, near } = anew(alloc, instance, budget, 1, seed, 0)?;
    let mut pool = CutPool::new(alloc, instance.n());
    let worker = LpWorker::new(alloc);
    let boss = alone(
        alloc, boss, &mut pool, instance, &near, &worker, &OpenGate, budget, seed, 0,
    )?;
    let _book = boss.snapshot();
    Ok(boss)
}

/// Writes the proof and prints its length, or writes the body and prints how far the search came.
fn write_down<D: Desk>(desk: &mut D, words: &BenchWords, outcome: &Outcome) -> Status
    requires outcome { IsBenchOutcome (drawn words.now.seed words.now.cities) words.now.budget outcome.now }
    requires small { words.now.cities ≤ 5 → 2047 ≤ words.now.budget → IsProof outcome.now }
    ensures ends { (c : Call) → SaysBench c.words words.now → SlotsKept c
        → Benches result (on_desk (D.told desk.old) (D.told desk.new) c) }
    ensures reads { D.read_faults desk.new ≡ D.read_faults desk.old }
    ensures writes { Cause (result ≡ Status.WriteFault) (D.write_faults desk.old) (D.write_faults desk.new) }
{
    match outcome {
        Outcome::Closed(closed) => {
            match publish(desk, &words.out, &closed.proof, &closed.line) {
                Ok(()) => Status::Benched,
                Err(_) => Status::WriteFault,
            }
        }
        Outcome::Stopped { body, printed } => match publish(desk, &words.out, body, printed) {
            Ok(()) => Status::BenchStopped,
            Err(_) => Status::WriteFault,
        },
    }
}
