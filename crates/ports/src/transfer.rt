//! Whole transfers over any desk.
ghost use Rattle.std.specs.Prelude.{◌≡◌, ℕ, ◌+◌, ◌<◌, ◌≤◌, [], take, length, IfOk, OnOk, OnErr, IsErr, IsErrOf};
ghost use Rattle.ports.specs.Outside.{BothTell, WhereTold, Cause};
ghost use Rattle.ports.specs.Desk.{left, Adds, TakesAll, TakesFirst};

use crate::{Desk, Failed, Inlet, Outlet};
use std::alloc::{AllocError, Global};
use std::error::Error;
use std::fmt;

/// How many bytes are asked for at a time.
const BLOCK: usize = 1 << 16;

/// Why an inlet was not read whole.
#[derive(Clone, Copy, Debug, PartialEq, Eq)]
pub enum ReadError {
    NoMemory,
    Failed,
    TooLong,
}

impl fmt::Display for ReadError {
    fn fmt<W: fmt::Write>(&self, f: &mut fmt::Formatter<W>) -> fmt::Result {
        match self {
            ReadError::NoMemory => write!(f, "out of memory"),
            ReadError::Failed => write!(f, "the outside failed"),
            ReadError::TooLong => write!(f, "too long"),
        }
    }
}

impl Error for ReadError {}

impl From<AllocError> for ReadError {
    ghost use Rattle.ports.specs.declared.transfer.ReadError.TheVariants.{NoMemory};

    ghost from_gives = { λ _ e. e ≡ NoMemory };

    fn from(_: AllocError) -> Self {
        ReadError::NoMemory
    }
}

impl From<Failed> for ReadError {
    ghost use Rattle.ports.specs.declared.transfer.ReadError.TheVariants as e;

    ghost from_gives = { λ _ error. error ≡ e.Failed };

    fn from(_: Failed) -> Self {
        ReadError::Failed
    }
}

/// Reads an inlet to its end, which has to come within `limit` bytes. At most `limit + 1` bytes are taken.
/// After an error the bytes that were taken are lost.
pub fn read_to_end<D: Desk>(
    alloc: Global,
    desk: &mut D,
    from: Inlet,
    limit: usize,
) -> Result<Vec<u8>, ReadError>
    ensures all { IfOk result (λ bytes. BothTell (TakesAll from bytes.items) (D.told desk.old) (D.told desk.new)) }
    ensures short { IfOk result (λ bytes. length bytes.items ≤ limit) }
    ensures too_long { IsErrOf result ReadError.TooLong → WhereTold (λ t. limit < length (left from t)) (D.told desk.old) }
    ensures taken { (k : ℕ) × (k ≤ limit + 1) × BothTell (TakesFirst from k) (D.told desk.old) (D.told desk.new) }
    ensures cause { Cause (IsErrOf result ReadError.Failed) (D.read_faults desk.old) (D.read_faults desk.new) }
    ensures same { D.write_faults desk.new ≡ D.write_faults desk.old }
{
    let mut bytes = Vec::new(alloc);
    let mut block = vec![in alloc; 0u8; BLOCK]?;
    read_blocks(desk, from, limit, &mut block, &mut bytes)?;
    Ok(bytes)
}

// Reads block by block, and puts the blocks one behind the other.
fn read_blocks<D: Desk>(
    desk: &mut D,
    from: Inlet,
    limit: usize,
    block: &mut [u8],
    bytes: &mut Vec<u8>,
) -> Result<(), ReadError>
    requires room { 0 < length block.old }
    requires empty { bytes.old.items ≡ [] }
    ensures all { OnOk result (BothTell (TakesAll from bytes.new.items) (D.told desk.old) (D.told desk.new)) }
    ensures short { OnOk result (length bytes.new.items ≤ limit) }
    ensures too_long { IsErrOf result ReadError.TooLong → WhereTold (λ t. limit < length (left from t)) (D.told desk.old) }
    ensures taken { (k : ℕ) × (k ≤ limit + 1) × BothTell (TakesFirst from k) (D.told desk.old) (D.told desk.new) }
    ensures cause { Cause (IsErrOf result ReadError.Failed) (D.read_faults desk.old) (D.read_faults desk.new) }
    ensures same { D.write_faults desk.new ≡ D.write_faults desk.old }
{
    'until_end: while bytes.len() <= limit {
        let room = (limit - bytes.len()).min(block.len() - 1) + 1;
        let count = desk.read(from, &mut block[..room])?;
        if count == 0 {
            return Ok(());
        }
        bytes.extend_from_slice(&block[..count])?;
    }
    Err(ReadError::TooLong)
}

/// Writes all of a piece to an outlet. After an error a front of it was written, and not all of it.
pub fn write_all<D: Desk>(desk: &mut D, to: Outlet, piece: &[u8]) -> Result<(), Failed>
    ensures all { OnOk result (BothTell (Adds to piece.now) (D.told desk.old) (D.told desk.new)) }
    ensures front { OnErr result ((k : ℕ) × (k < length piece.now) × BothTell (Adds to (take k piece.now)) (D.told desk.old) (D.told desk.new)) }
    ensures cause { Cause (IsErr result) (D.write_faults desk.old) (D.write_faults desk.new) }
    ensures same { D.read_faults desk.new ≡ D.read_faults desk.old }
{
    let mut done = 0;
    while done < piece.len() {
        done += desk.write(to, &piece[done..])?;
    }
    Ok(())
}
