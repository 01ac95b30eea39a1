//! The odd cuts that a search met.
use crate::cuts::{handle_of, is_turned};
use crate::folding::{differ, is_marked, is_over};
use crate::sides::Side;
use cutform::{Cut, CutError};
use cyc::{Entry, Frac};
use std::alloc::{AllocError, Global};

/// The cuts of the sides that weigh less than a limit, rising and each once.
pub fn met_cuts(
    alloc: Global,
    x: &Frac,
    sides: &[Side],
    limit: u64,
) -> Result<Vec<Cut>, AllocError> {
    let mut cuts = Vec::new(alloc);
    for side in sides {
        if side.weight < limit {
            add_cut(alloc, x, side, &mut cuts)?;
        }
    }
    cuts.sort()?;
    cuts.dedup();
    Ok(cuts)
}

/// Adds the cut of a side, where it has one.
fn add_cut(alloc: Global, x: &Frac, side: &Side, cuts: &mut Vec<Cut>) -> Result<(), AllocError> {
    let handle = handle_of(alloc, x.n(), &side.side)?;
    let pairs = pairs_across(alloc, x, side)?;
    match Cut::odd(alloc, handle, pairs) {
        Ok(cut) => cuts.push(cut)?,
        Err(CutError::NoMemory) => return Err(AllocError),
        Err(_) => {}
    }
    Ok(())
}

/// The pairs that cross a side and are chosen, rising. Each is that of an entry: a pair with none has the value 0, which is not above a
/// half, and is not turned over.
fn pairs_across(alloc: Global, x: &Frac, side: &Side) -> Result<Vec<(u32, u32)>, AllocError> {
    let mut pairs = Vec::new(alloc);
    for entry in x.entries() {
        if is_across(*entry, side) {
            pairs.push((entry.u.min(entry.v), entry.u.max(entry.v)))?;
        }
    }
    pairs.sort()?;
    Ok(pairs)
}

/// Whether an entry crosses a side and is chosen.
fn is_across(entry: Entry, side: &Side) -> bool {
    let crosses = differ(
        is_marked(&side.side, entry.u),
        is_marked(&side.side, entry.v),
    );
    let chosen = differ(is_over(entry.x), is_turned(side.turned, entry.u, entry.v));
    crosses && chosen
}
