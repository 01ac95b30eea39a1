//! The graph of those pairs of cities whose value in a relaxation lies between two limits, and its components.
//!
//! With limits that leave out 0 and one length it is the graph of the fractional pairs, whose components are handles of
//! blossoms and combs (Padberg and Rinaldi 1990) and sets to branch by.
#![tactic(auto)]

ghost use Rattle.std.specs.Prelude.{◌≡◌, IfOk};
ghost use Rattle.fracgraph.specs.Components.{AreComponents};

mod classes;
mod labels;

use classes::{class_of, nexts_of, set_of};
use cyc::{CitySet, Frac};
use std::alloc::{AllocError, Global};

/// The components of the graph of the pairs whose value, in units, is above `low` and below `high`: those of two cities or
/// more, in order of their least city.
///
/// An entry that joins two parts takes a step for each parent above its cities, and else each city takes a few:
/// O(entries * depth + n), where the depth is that of the trees of parts, two or three in practice.
pub fn components(alloc: Global, x: &Frac, low: u32, high: u32) -> Result<Vec<CitySet>, AllocError>
    ensures { IfOk result (λ sets. AreComponents x.now low high sets.items) }
{
    let labels = labels::of(alloc, x, low, high)?;
    let n = x.n();
    let nexts = nexts_of(alloc, n, &labels)?;
    let mut sets = Vec::new(alloc);
    for city in 0..n {
        if labels[city as usize] == city && nexts[city as usize] < n {
            let cities = class_of(alloc, &labels, &nexts, city)?;
            sets.push(set_of(alloc, n, cities)?)?;
        }
    }
    Ok(sets)
}
