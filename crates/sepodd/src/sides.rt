//! Sides of cities as marks, the best so far, and those that were met on the way.
ghost use Rattle.std.specs.Prelude.{◌≡◌, ◌<◌, ◌≤◌, ℕ, Bool, length, slice_index, false, IfOk};
ghost use Rattle.tspdef.specs.Sets.{has};
ghost use Rattle.sepodd.specs.Sides.{is_marked, HasWeight, IsBest};

use crate::{SCALE, folding};
use cyc::{CitySet, Frac};
use std::alloc::{AllocError, Global};

/// A side that a flow met: its weight, the cities marked, and the pair whose choice is turned over, if any.
#[derive(Drop)]
pub struct Side {
    pub weight: u64,
    pub side: Vec<bool>,
    pub turned: Option<(u32, u32)>,
}

/// The least weight so far, at most one length. Where it is less, a side that has it: the cities marked, and the pair whose choice is
/// turned over, if any. Beside them all sides that were met, the best among them.
#[derive(Drop)]
pub struct Best {
    pub weight: u64,
    pub side: Vec<bool>,
    pub turned: Option<(u32, u32)>,
    pub met: Vec<Side>,
}

/// Nothing found yet.
pub fn none(alloc: Global, x: &Frac) -> Result<Best, AllocError>
    ensures best { IfOk result (λ b. IsBest x.now b) }
{
    let side = vec![in alloc; false; x.n() as usize]?;
    Ok(Best {
        weight: u64::from(SCALE),
        side,
        turned: None,
        met: Vec::new(alloc),
    })
}

/// Where flows are given up: half-way between the best weight so far and one length.
pub fn limit(weight: u64) -> u64
    requires { weight ≤ 1048576 }
    ensures least { weight ≤ result }
    ensures most { result ≤ 1048576 }
{
    let one = u64::from(SCALE);
    one - (one - weight) / 2
}

/// The best so far, or a side that was met where it weighs less; it is one of those met in any case.
pub fn with_side(alloc: Global, x: &Frac, best: Best, side: Side) -> Result<Best, AllocError>
    requires best { IsBest x.now best }
    requires size { length side.side.items ≡ x.now.n }
    requires has_weight { HasWeight x.now.entries (is_marked side.side.items) side.turned side.weight }
    ensures best { IfOk result (λ b. IsBest x.now b) }
    ensures no_more { IfOk result (λ b. b.weight ≤ best.weight) }
    ensures met { IfOk result (λ b. b.weight ≤ side.weight) }
{
    let mut best = best;
    if side.weight < best.weight {
        best.weight = side.weight;
        best.side = Vec::from_slice(alloc, &side.side)?;
        best.turned = side.turned;
    }
    best.met.push(side)?;
    Ok(best)
}

/// The marks of the members of a set.
pub fn members_of(alloc: Global, n: u32, set: &CitySet) -> Result<Vec<bool>, AllocError>
    ensures size { IfOk result (λ v. length v.items ≡ n) }
    ensures marks { IfOk result (λ v. (k : ℕ) → k < n → is_marked v.items k ≡ has set.now.cities k) }
{
    let mut marks = Vec::new(alloc);
    for k in 0..n {
        marks.push(set.contains(k))?;
    }
    Ok(marks)
}

/// The marks of the cities whose group is marked.
pub fn marks_of(alloc: Global, numbers: &[u32], groups: &[bool]) -> Result<Vec<bool>, AllocError>
    ensures size { IfOk result (λ v. length v.items ≡ length numbers.now) }
    ensures marks { IfOk result (λ v. (k : ℕ) → k < length numbers.now → is_marked v.items k ≡ is_marked groups.now (slice_index numbers.now k)) }
{
    let mut marks = Vec::new(alloc);
    for k in 0..numbers.len() {
        marks.push(folding::is_marked(groups, numbers[k]))?;
    }
    Ok(marks)
}
