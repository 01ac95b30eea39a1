//! The run of the verifier.
ghost use Rattle.std.specs.Prelude.{◌≡◌, ◌≢◌, ◌⊎◌, ℕ, map, string_bytes, take};
ghost use Rattle.ports.specs.Outside.{BothTell, Cause};
ghost use Rattle.ports.specs.Desk.{Adds};
ghost use Rattle.verification.specs.Texts as texts;
ghost use Rattle.verification.specs.Counts.{IsCalm};
ghost use Rattle.verification.specs.Paths.{paths_in};
ghost use Rattle.verification.specs.Runs.{Ends, EndsRun, IsComplete, run_of};

use crate::judging::judge;
use crate::reading::{Reading, Unread, read_instance, refuse};
use crate::statuses::VerifyStatus;
use crate::texts::USAGE;
use ports::{Desk, Outlet, write_all};
use std::alloc::Global;
use tspwords::{VerifyWords, WordsError, read_verify_words};

/// Does what the words of the verifier's command line say, of which the first is the program's name, and says how it ended.
///
/// `INSTANCE PROOF` reads the instance to its end and then the proof, whoever wrote it, and prints `VERIFIED` and the length of a
/// shortest tour where the proof is accepted with this as its bound, `WITHIN`, the length of the proof's tour and the bound where it is
/// accepted with a lesser bound, and else `REFUSED` and its first refusal with the line of it. Where the instance
/// fixes edges, its tours are those with each of them. A bad instance is told by `INSTANCE` and its first refusal, and no proof is
/// opened then. Each file is opened once, and none is written.
///
/// Where the desk does not tell what it holds, the clauses speak of the words and of the counts of faults alone.
pub fn run_verify<R, D: Desk>(
    _rt: &R,
    alloc: Global,
    words: &[String],
    desk: &mut D,
) -> VerifyStatus
    ensures answers { EndsRun result (run_of (map string_bytes words.now) (D.told desk.old) (D.told desk.new)) }
    ensures reads { Cause (result ≡ VerifyStatus.ReadFault) (D.read_faults desk.old) (D.read_faults desk.new) }
    ensures writes { Cause (result ≡ VerifyStatus.WriteFault) (D.write_faults desk.old) (D.write_faults desk.new) }
    ensures complete { IsCalm (D.read_faults desk.old) (D.read_faults desk.new)
        → IsCalm (D.write_faults desk.old) (D.write_faults desk.new)
        → IsComplete result (run_of (map string_bytes words.now) (D.told desk.old) (D.told desk.new)) }
{
    match read_verify_words(alloc, words) {
        Ok(words) => verify(alloc, &words, desk),
        Err(WordsError::Usage) => usage(desk),
        Err(WordsError::NoMemory) => VerifyStatus::NoMemory,
    }
}

/// Prints the usage.
fn usage<D: Desk>(desk: &mut D) -> VerifyStatus
    ensures usage { result ≡ VerifyStatus.Usage → BothTell (Adds Outlet.Text texts.usage_text) (D.told desk.old) (D.told desk.new) }
    ensures torn { result ≡ VerifyStatus.WriteFault
        → (k : ℕ) × BothTell (Adds Outlet.Text (take k texts.usage_text)) (D.told desk.old) (D.told desk.new) }
    ensures status { (result ≡ VerifyStatus.Usage) ⊎ (result ≡ VerifyStatus.WriteFault) }
    ensures cause { Cause (result ≡ VerifyStatus.WriteFault) (D.write_faults desk.old) (D.write_faults desk.new) }
    ensures same { D.read_faults desk.new ≡ D.read_faults desk.old }
{
    match write_all(desk, Outlet::Text, USAGE.as_bytes()) {
        Ok(()) => VerifyStatus::Usage,
        Err(_) => VerifyStatus::WriteFault,
    }
}

/// Reads an instance and a proof, and prints whether the proof is one for the instance, as [`run_verify`] does.
pub fn verify<D: Desk>(alloc: Global, words: &VerifyWords, desk: &mut D) -> VerifyStatus
    ensures answers { BothTell (Ends (paths_in words.now) result) (D.told desk.old) (D.told desk.new) }
    ensures status { result ≢ VerifyStatus.Usage }
    ensures reads { Cause (result ≡ VerifyStatus.ReadFault) (D.read_faults desk.old) (D.read_faults desk.new) }
    ensures writes { Cause (result ≡ VerifyStatus.WriteFault) (D.write_faults desk.old) (D.write_faults desk.new) }
{
    match read_instance(alloc, desk, &words.instance) {
        Ok(Reading::Instance(instance)) => judge(alloc, desk, &instance, &words.proof),
        Ok(Reading::Refused(refusal)) => refuse(alloc, desk, refusal),
        Err(Unread::Failed) => VerifyStatus::ReadFault,
        Err(Unread::NoMemory) => VerifyStatus::NoMemory,
    }
}
