//! `tspverify`: the verifier on files. `tspverify INSTANCE PROOF` says whether the file PROOF is a proof that no tour of the
//! instance is shorter than its length, whoever wrote it. On a terminal it tells on standard error what a refusal means.
#![tactic(auto)]

use ports::FileDesk;
use std::alloc::AllocError;
use std::io::IsTerminal;
use std::process::ExitCode;
use verification::{VerifyStatus, command_words, run_verify};
use wording::{KeepingDesk, Subject, tell};

fn main(rt: HostRuntime) -> ExitCode {
    match verify(&rt) {
        Ok(status) => ExitCode::from(status.code()),
        Err(AllocError) => ExitCode::from(VerifyStatus::NoMemory.code()),
    }
}

/// Runs the verifier on the real desk, and says on a terminal what a refusal means.
fn verify(rt: &HostRuntime) -> Result<VerifyStatus, AllocError> {
    let mut desk = KeepingDesk::new(rt.alloc(), FileDesk::new(rt.clone()?))?;
    let words = command_words(rt)?;
    let status = run_verify(rt, rt.alloc(), &words, &mut desk);
    let is_terminal = rt.stderr().is_terminal();
    tell(
        rt,
        rt.alloc(),
        is_terminal,
        status.code(),
        Subject::Other,
        desk.last_line(),
    );
    Ok(status)
}
