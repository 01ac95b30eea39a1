//! Closings made of any duals, such as those of a linear program, which no one has checked.

ghost use Rattle.std.specs.Prelude.{◌≡◌, ◌^◌, int_lt, pos, min, nat_abs, take, IfOk};
ghost use Rattle.tspdef.specs.Closings as defs;
ghost use Rattle.pricer.specs.Rounds.{clamped, city_duals, positive, rounded};

use crate::closing::Closing;
use cutform::Cut;
use std::alloc::{AllocError, Global};

/// The greatest size of a dual.
const MOST: i128 = 1 << 62;

/// The greatest number of cut duals, and of clique duals.
const MANY: usize = 4096;

/// The closing of any duals, in units of 2^-20 of a length, cut to the sizes and counts of a closing. Each of the `n` cities
/// has its dual, 0 where the list is too short, cut to size 2^62. Cuts and depths stay in their order: those whose dual
/// is not positive are left out, the first 4,096 of the others are kept, each dual cut to 2^62. The closing may still have
/// cuts or depths that do not fit the node.
pub fn round(
    alloc: Global,
    n: u32,
    city: &[i128],
    cuts: Vec<(Cut, i128)>,
    conds: Vec<(u32, i128)>,
) -> Result<Closing, AllocError>
    ensures closing { IfOk result (λ c. c ≡ rounded n city.now cuts.items conds.items) }
    ensures counts { IfOk result (defs.HasCounts n) }
    ensures sizes { IfOk result defs.HasSizes }
{
    Ok(Closing::new(
        round_cities(alloc, n, city)?,
        round_positive(alloc, cuts)?,
        round_positive(alloc, conds)?,
    ))
}

/// A dual of a city, cut to the size of one.
fn clamped(dual: i128) -> i64
    ensures { result ≡ clamped dual }
{
    dual.min(MOST).max(-MOST) as i64
}

/// Whether a dual of a cut or a condition counts.
fn is_positive(dual: i128) -> bool
    ensures { result ≡ int_lt (pos 0) dual }
{
    dual > 0
}

/// The size of a dual, cut to that of one of a cut or a condition.
fn size(dual: i128) -> u64
    ensures { result ≡ min (nat_abs dual) (2 ^ 62) }
{
    dual.unsigned_abs().min(MOST as u128) as u64
}

/// The duals of the cities.
fn round_cities(alloc: Global, n: u32, city: &[i128]) -> Result<Vec<i64>, AllocError>
    ensures { IfOk result (λ v. v.items ≡ city_duals n city.now) }
{
    let mut duals = Vec::with_capacity(alloc, n as usize)?;
    for i in 0..n {
        duals.push(clamped(city.get(i as usize).copied().unwrap_or(0)))?;
    }
    Ok(duals)
}

/// The first of those with a positive dual.
fn round_positive<T: Drop>(
    alloc: Global,
    duals: Vec<(T, i128)>,
) -> Result<Vec<(T, u64)>, AllocError>
    ensures { IfOk result (λ v. v.items ≡ take 4096 (positive duals.items)) }
{
    let mut kept = Vec::with_capacity(alloc, duals.len())?;
    for (item, dual) in duals {
        if is_positive(dual) {
            kept.push((item, size(dual)))?;
        }
    }
    kept.truncate(MANY);
    Ok(kept)
}
