//! What of a program a like one begins with.
ghost use Rattle.std.specs.Prelude.{◌≤◌, length, IfOk};

use cutform::Cut;
use simplex::{Basis, Column, Lp};
use std::alloc::{AllocError, Global};

/// How many cuts a like program begins with at most.
const MANY: usize = 65_536;

/// The pairs of some columns.
pub fn pairs_of(alloc: Global, cols: &[Column]) -> Result<Vec<(u32, u32)>, AllocError> {
    let mut pairs = Vec::with_capacity(alloc, cols.len())?;
    for column in cols {
        pairs.push((column.u, column.v))?;
    }
    Ok(pairs)
}

/// Whether the cut at a place is one of those that are kept.
fn is_kept(kept: &[bool], place: usize) -> bool {
    kept.get(place).copied().unwrap_or(false)
}

/// The cuts that are kept, the first 65,536 of them.
pub fn cuts_kept(alloc: Global, cuts: &[(Cut, u32)], kept: &[bool]) -> Result<Vec<Cut>, AllocError>
    ensures { IfOk result (λ few. length few.items ≤ 65536) }
{
    let mut few = Vec::new(alloc);
    for (place, (cut, _)) in cuts.iter().enumerate() {
        if is_kept(kept, place) {
            few.push(cut.copy(alloc)?)?;
        }
    }
    few.truncate(MANY);
    Ok(few)
}

/// The basis at which a program stands, as one has it that begins with the cuts that are kept, in their order.
pub fn basis_without(
    alloc: Global,
    lp: &Lp,
    cuts: &[(Cut, u32)],
    kept: &[bool],
) -> Result<Basis, AllocError> {
    let mut columns = Vec::with_capacity(alloc, lp.cols().len())?;
    for column in 0..lp.cols().len() {
        columns.push(lp.is_basic(column))?;
    }
    Ok(Basis {
        columns,
        slacks: slacks_without(alloc, lp, cuts, kept)?,
        gone: None,
    })
}

/// Which slacks are basic: those of the rows before the cuts, and those of the cuts that are kept.
fn slacks_without(
    alloc: Global,
    lp: &Lp,
    cuts: &[(Cut, u32)],
    kept: &[bool],
) -> Result<Vec<bool>, AllocError> {
    let mut slacks = Vec::new(alloc);
    for row in 0..lp.rows().len().saturating_sub(cuts.len()) {
        slacks.push(lp.is_slack_basic(row))?;
    }
    for (place, (_, row)) in cuts.iter().enumerate() {
        if is_kept(kept, place) {
            slacks.push(lp.is_slack_basic(*row as usize))?;
        }
    }
    Ok(slacks)
}
