//! Teeth as sets.
ghost use Rattle.std.specs.Prelude.{◌≡◌, ℕ, ◌<◌, ◌≤◌, false, ◌∷◌, slice_index_or, IfOk};
ghost use Rattle.tspdef.specs.Sets.{has};
ghost use Rattle.sepcomb.specs.Growth.{set_below};

use cyc::{CitySet, Entry};
use sepblos::{is_marked, mark, set_of};
use std::alloc::{AllocError, Global};

/// Whether a city is one of these.
pub fn is_in(cities: &[u32], city: u32) -> bool
    ensures { result ≡ has cities.now city }
{
    for other in cities {
        if *other == city {
            return true;
        }
    }
    false
}

/// The cities of a pair and of a path as a set. O(n), and a step for each city of the path.
pub fn tooth_of(alloc: Global, n: u32, pair: Entry, path: &[u32]) -> Result<CitySet, AllocError>
    requires many { 3 ≤ n }
    requires few { n ≤ 2000 }
    ensures { IfOk result (λ s. s ≡ record { n = n; cities = set_below n (pair.u ∷ pair.v ∷ path.now) }) }
{
    let marks = marks_of(alloc, n, pair, path)?;
    let mut cities = Vec::new(alloc);
    for city in 0..n {
        if is_marked(&marks, city) {
            cities.push(city)?;
        }
    }
    let set = set_of(alloc, n, cities)?;
    Ok(set)
}

/// Which of n cities are of a pair or of a path.
fn marks_of(alloc: Global, n: u32, pair: Entry, path: &[u32]) -> Result<Vec<bool>, AllocError>
    ensures { IfOk result (λ marks. (c : ℕ) → c < n → slice_index_or marks.items c false ≡ has (pair.u ∷ pair.v ∷ path.now) c) }
{
    let mut marks = vec![in alloc; false; n as usize]?;
    mark(&mut marks, &[pair.u, pair.v]);
    mark(&mut marks, path);
    Ok(marks)
}
