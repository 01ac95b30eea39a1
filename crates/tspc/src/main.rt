//! `tspc`: the exact TSP solver on files. `tspc solve INSTANCE PROOF RESTART [--budget N] [--seed S] ..` writes the proof to the file PROOF, and
//! keeps a body to go on from in the files `RESTART.0` and `RESTART.1`. On a terminal it tells on standard error how far it is, and what a
//! refusal means.
#![tactic(auto)]

use ports::{FileDesk, FileSlots, PlainPosts};
use progress::{Progress, choose, is_asked};
use std::alloc::AllocError;
use std::io::IsTerminal;
use std::process::ExitCode;
use tspengine::{Status, run};
use verification::command_words;
use wording::{KeepingDesk, Subject, tell};

/// Posts that lose, repeat and delay nothing of their own.
const POSTS: PlainPosts = PlainPosts {
    lose: 0,
    twice: false,
    late: false,
};

fn main(rt: HostRuntime) -> ExitCode {
    let status = match outside(&rt) {
        Ok((words, mut desk, mut slots, progress)) => {
            let status = run(
                &rt,
                rt.alloc(),
                &words,
                &mut desk,
                &mut slots,
                &POSTS,
                &progress,
            );
            tell_end(&rt, status, desk.last_line());
            status
        }
        Err(AllocError) => Status::NoMemory,
    };
    ExitCode::from(status.code())
}

/// Says on a terminal what the end of a run means, of which this line was printed last.
fn tell_end(rt: &HostRuntime, status: Status, line: &[u8]) {
    let subject = match status {
        Status::BoundRefused => Subject::Certificate,
        Status::BadTape => Subject::Tape,
        _ => Subject::Other,
    };
    let is_terminal = rt.stderr().is_terminal();
    tell(rt, rt.alloc(), is_terminal, status.code(), subject, line);
}

/// What a run has outside: the words of the command line, the real desk and slots, and standard error, to tell there how far it is.
type Outside = (
    Vec<String>,
    KeepingDesk<FileDesk<HostRuntime>>,
    FileSlots<HostRuntime>,
    Progress<HostRuntime>,
);

/// The outside of this run.
fn outside(rt: &HostRuntime) -> Result<Outside, AllocError> {
    let words = command_words(rt)?;
    let desk = KeepingDesk::new(rt.alloc(), FileDesk::new(rt.clone()?))?;
    let slots = FileSlots::new(rt.alloc(), rt.clone()?)?;
    let how = choose(rt.stderr().is_terminal(), is_asked(rt));
    let progress = Progress::new(rt.alloc(), rt.clone()?, how);
    Ok((words, desk, slots, progress))
}
