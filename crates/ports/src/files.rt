//! Single reads and writes of open files, and the count of their faults.
ghost use Rattle.std.specs.Prelude.{◌≡◌, ◌<◌, ◌≤◌, length, IfOk, IsTrue};
ghost use Rattle.ports.specs.Calls.{faults_after};
ghost use Rattle.ports.specs.Outside.{Cause};

use crate::Failed;
use std::io::{ErrorKind, Print, Read, Write};

/// How often a call is made again where a signal interrupts it.
const TRIES: u32 = 1 << 20;

/// Reads some bytes of a file; without one it fails.
pub fn read_some<F: Read>(file: &mut Option<F>, buf: &mut [u8]) -> Result<usize, Failed>
    ensures { IfOk result (λ k. k ≤ length buf.old) }
{
    let Some(file) = file else {
        return Err(Failed);
    };
    for _ in 0..TRIES {
        match file.read(buf) {
            Ok(count) => return Ok(count),
            Err(e) if e.kind() == ErrorKind::Interrupted => {}
            Err(_) => return Err(Failed),
        }
    }
    Err(Failed)
}

/// Writes some bytes to a file, at least one if there is one; without a file it fails.
pub fn write_some<F: Write>(file: &mut Option<F>, piece: &[u8]) -> Result<usize, Failed>
    ensures within { IfOk result (λ k. k ≤ length piece.now) }
    ensures some { IfOk result (λ k. 0 < length piece.now → 0 < k) }
{
    let Some(file) = file else {
        return Err(Failed);
    };
    for _ in 0..TRIES {
        match file.write(piece) {
            Ok(0) if !piece.is_empty() => return Err(Failed),
            Ok(count) => return Ok(count),
            Err(e) if e.kind() == ErrorKind::Interrupted => {}
            Err(_) => return Err(Failed),
        }
    }
    Err(Failed)
}

/// Writes some bytes to the standard output, at least one if there is one.
pub fn print_some<R: Print>(rt: &R, piece: &[u8]) -> Result<usize, Failed>
    ensures within { IfOk result (λ k. k ≤ length piece.now) }
    ensures some { IfOk result (λ k. 0 < length piece.now → 0 < k) }
{
    for _ in 0..TRIES {
        match rt.write_some(piece) {
            Ok(0) if !piece.is_empty() => return Err(Failed),
            Ok(count) => return Ok(count),
            Err(e) if e.kind() == ErrorKind::Interrupted => {}
            Err(_) => return Err(Failed),
        }
    }
    Err(Failed)
}

/// Counts a fault, where there is one.
pub fn count_fault(faults: &mut u64, failed: bool)
    ensures faults { faults.new ≡ faults_after failed faults.old }
    ensures cause { Cause (IsTrue failed) faults.old faults.new }
{
    if failed {
        *faults = faults.saturating_add(1);
    }
}
