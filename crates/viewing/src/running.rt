//! The run of the viewer.
ghost use Rattle.std.specs.Prelude.{◌≡◌, ◌≢◌, ◌⊎◌, ℕ, map, string_bytes, take};
ghost use Rattle.ports.specs.Outside.{BothTell, Cause};
ghost use Rattle.ports.specs.Desk.{Adds};
ghost use Rattle.verification.specs.Counts.{IsCalm};
ghost use Rattle.viewing.specs.Texts as texts;
ghost use Rattle.viewing.specs.Words.{paths_in};
ghost use Rattle.viewing.specs.Runs.{Ends, EndsRun, IsComplete, run_of};

use crate::arguments::{Paths, read_words};
use crate::reading::{Reading, Unread, read_mapped};
use crate::showing::show;
use crate::statuses::{ViewStatus, status_of};
use crate::texts::USAGE;
use ports::{Desk, Outlet, write_all};
use std::alloc::Global;
use verification::refuse;

/// Does what the words of the viewer's command line say, of which the first is the program's name, and says how it ended.
///
/// `INSTANCE TEXT OUT` reads the instance to its end and then the text, whoever wrote it. Where this is a proof or a restart body for
/// the instance, it writes the picture of its tour and its tree to OUT, and prints `DRAWN` and the length of the tour; else it prints
/// `REFUSED` and the first refusal with its line, and OUT is not touched. A bad instance is told by `INSTANCE` and its first refusal, and
/// no text is opened then. Each file is opened once.
///
/// Where the desk does not tell what it holds, the clauses speak of the words and of the counts of faults alone.
pub fn run_view<R, D: Desk>(_rt: &R, alloc: Global, words: &[String], desk: &mut D) -> ViewStatus
    ensures answers { EndsRun result (run_of (map string_bytes words.now) (D.told desk.old) (D.told desk.new)) }
    ensures reads { Cause (result ≡ ViewStatus.ReadFault) (D.read_faults desk.old) (D.read_faults desk.new) }
    ensures writes { Cause (result ≡ ViewStatus.WriteFault) (D.write_faults desk.old) (D.write_faults desk.new) }
    ensures complete { IsCalm (D.read_faults desk.old) (D.read_faults desk.new)
        → IsCalm (D.write_faults desk.old) (D.write_faults desk.new)
        → IsComplete result (run_of (map string_bytes words.now) (D.told desk.old) (D.told desk.new)) }
{
    match read_words(words) {
        Some(paths) => view(alloc, paths, desk),
        None => usage(desk),
    }
}

/// Prints the usage.
fn usage<D: Desk>(desk: &mut D) -> ViewStatus
    ensures usage { result ≡ ViewStatus.Usage → BothTell (Adds Outlet.Text texts.usage_text) (D.told desk.old) (D.told desk.new) }
    ensures torn { result ≡ ViewStatus.WriteFault
        → (k : ℕ) × BothTell (Adds Outlet.Text (take k texts.usage_text)) (D.told desk.old) (D.told desk.new) }
    ensures status { (result ≡ ViewStatus.Usage) ⊎ (result ≡ ViewStatus.WriteFault) }
    ensures cause { Cause (result ≡ ViewStatus.WriteFault) (D.write_faults desk.old) (D.write_faults desk.new) }
    ensures same { D.read_faults desk.new ≡ D.read_faults desk.old }
{
    match write_all(desk, Outlet::Text, USAGE.as_bytes()) {
        Ok(()) => ViewStatus::Usage,
        Err(_) => ViewStatus::WriteFault,
    }
}

/// Does what a call says that names its paths.
fn view<D: Desk>(alloc: Global, paths: Paths<'_>, desk: &mut D) -> ViewStatus
    ensures answers { BothTell (Ends (paths_in paths.entry) result) (D.told desk.old) (D.told desk.new) }
    ensures status { result ≢ ViewStatus.Usage }
    ensures reads { Cause (result ≡ ViewStatus.ReadFault) (D.read_faults desk.old) (D.read_faults desk.new) }
    ensures writes { Cause (result ≡ ViewStatus.WriteFault) (D.write_faults desk.old) (D.write_faults desk.new) }
{
    match read_mapped(alloc, desk, paths.instance) {
        Ok(Reading::Mapped(mapped)) => show(alloc, desk, &mapped, paths),
        Ok(Reading::Refused(refusal)) => status_of(refuse(alloc, desk, refusal)),
        Err(Unread::Failed) => ViewStatus::ReadFault,
        Err(Unread::NoMemory) => ViewStatus::NoMemory,
    }
}
