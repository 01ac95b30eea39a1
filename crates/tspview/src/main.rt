//! `tspview`: the viewer on files. `tspview INSTANCE TEXT OUT` draws the tour and the tree of a proof or a restart body into the SVG
//! file OUT, whoever wrote the text. On a terminal it tells on standard error what a refusal means.
#![tactic(auto)]

use ports::FileDesk;
use std::alloc::AllocError;
use std::io::IsTerminal;
use std::process::ExitCode;
use verification::command_words;
use viewing::{ViewStatus, run_view};
use wording::{KeepingDesk, Subject, tell};

fn main(rt: HostRuntime) -> ExitCode {
    match view(&rt) {
        Ok(status) => ExitCode::from(status.code()),
        Err(AllocError) => ExitCode::from(ViewStatus::NoMemory.code()),
    }
}

/// Runs the viewer on the real desk, and says on a terminal what a refusal means.
fn view(rt: &HostRuntime) -> Result<ViewStatus, AllocError> {
    let mut desk = KeepingDesk::new(rt.alloc(), FileDesk::new(rt.clone()?))?;
    let words = command_words(rt)?;
    let status = run_view(rt, rt.alloc(), &words, &mut desk);
    let is_terminal = rt.stderr().is_terminal();
    tell(
        rt,
        rt.alloc(),
        is_terminal,
        status.code(),
        Subject::Other,
        desk.last_line(),
    );
    Ok(status)
}
