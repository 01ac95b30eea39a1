//! Runs of the verifier over a desk in memory, and texts that rows change.

use ports::{MemDesk, Room};
use std::alloc::{AllocError, Global};
use verification::{VerifyStatus, run_verify};

pub(crate) const SQUARE: &str =
    "NAME : square\nTYPE : TSP\nDIMENSION : 4\nEDGE_WEIGHT_TYPE : EUC_2D\nNODE_COORD_SECTION\n1 0 0\n2 0 10\n3 10 10\n4 10 0\nEOF\n";

pub(crate) const PRISM: &str =
    "NAME : prism\nTYPE : TSP\nDIMENSION : 6\nEDGE_WEIGHT_TYPE : EXPLICIT\nEDGE_WEIGHT_FORMAT : UPPER_ROW\nEDGE_WEIGHT_SECTION\n1 1 0 100 100\n1 100 0 100\n100 100 0\n1 1\n1\nEOF\n";

/// The square's first five lines.
pub(crate) const HEAD: &str = "TSPCERT 1\nN 4\nLENGTH 40\nTOUR 1 2 3 4\nCUTS 0\n";

/// The square's proof of four duals.
pub(crate) const PROOF: &str =
    "TSPCERT 1\nN 4\nLENGTH 40\nTOUR 1 2 3 4\nCUTS 0\nL 4 0 0\nP 1 5242880\nP 2 5242880\nP 3 5242880\nP 4 5242880\n";

const ROOM: Room = Room {
    bytes: 1 << 12,
    paths: 64,
    calls: 4_000_000,
};

/// A run that has ended.
#[derive(Drop)]
pub(crate) struct Ended {
    pub status: VerifyStatus,
    pub desk: MemDesk,
}

/// Runs the verifier on an instance's text and the bytes of a proof.
pub(crate) fn verified(alloc: Global, instance: &str, proof: &str) -> Result<Ended, AllocError> {
    let mut words = Vec::new(alloc);
    for word in ["tspverify", "a", "b"] {
        words.push(format!(in alloc; "{word}")?)?;
    }
    let mut desk = MemDesk::new(
        alloc,
        instance.as_bytes(),
        proof.as_bytes(),
        65_536,
        65_536,
        &[],
        &[],
        &[],
        ROOM,
    )?;
    let status = run_verify(&(), alloc, &words, &mut desk);
    Ok(Ended { status, desk })
}

/// A text with one line, from 1, in place of another.
pub(crate) fn with_line(
    alloc: Global,
    text: &str,
    number: usize,
    line: &str,
) -> Result<String, AllocError> {
    let mut changed = format!(in alloc; "")?;
    for (k, old) in text.lines().enumerate() {
        changed.push_str(if k + 1 == number { line } else { old })?;
        changed.push_str("\n")?;
    }
    Ok(changed)
}
