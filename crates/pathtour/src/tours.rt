//! The tour that the used pairs of a path are.
ghost use Rattle.std.specs.Prelude.{◌≤◌, IfOk, IfSome, IfNone};
ghost use Rattle.pathtour.specs.UsedTour.{IsUsedTour, IsUsedByNone};
ghost use Rattle.pathtour.specs.Laws.{UsedToursAreOfOneLength, UsedTourIsOne, UsedToursHoldFixedPairs};

use crate::neighbours::neighbours_of;
use crate::rounds::round_along;
use branchx::Path;
use cyc::Tour;
use std::alloc::{AllocError, Global};

/// The canonical tour whose steps are exactly the pairs that a path uses, if there is one. What the path says of sets and
/// of unused pairs is passed over. It takes O(n + depth).
///
/// Each city needs two used neighbours. A walk from city 0 to its lower neighbour, and from each city on to the
/// neighbour that it did not come from, has no choice: where the used pairs are a tour it is that tour in its canonical
/// form, so if the walk is none no tour has these steps.
pub fn tour_of(alloc: Global, path: &Path) -> Result<Option<Tour>, AllocError>
    requires many { 3 ≤ path.now.n }
    requires few { path.now.n ≤ 2000 }
    ensures found { IfOk result (λ t. IfSome t (IsUsedTour path.now.n path.now.conditions)) }
    ensures none { IfOk result (λ t. IfNone t (IsUsedByNone path.now.n path.now.conditions)) }
{
    let n = path.n();
    let Some(pairs) = neighbours_of(alloc, n, path.conditions())? else {
        return Ok(None);
    };
    round_along(alloc, n, &pairs)
}

/// All tours whose steps are the pairs that a path uses are of one length, and one of them alone is canonical. Where the path
/// begins with the fixed pairs of an instance, they are tours of the instance.
pub fn used_pairs_are_one_tour()
    ensures long { UsedToursAreOfOneLength }
    ensures one { UsedTourIsOne }
    ensures fixed { UsedToursHoldFixedPairs }
{}
