//! By what to split a node.
ghost use Rattle.std.specs.Prelude.{◌≡◌, ◌↔◌, IsNone, IfOk, IfSome};
ghost use Rattle.tspdef.specs.Paths.{DecidesAll};
ghost use Rattle.branchx.specs.Branch.{IsSplit};
ghost use Rattle.branchx.specs.Choice.{IsChoice};

use crate::branch::Branch;
use crate::fit::first_fit;
use crate::nearest::nearest_open;
use crate::path::Path;
use crate::table::table_of;
use cyc::Frac;
use fracgraph::components;
use std::alloc::{AllocError, Global};

/// How far a value has to be from 0 and from one length to count as neither, in units.
const MIDDLE: u32 = 0x400;

/// By what to split a node with a path, where the relaxation has these values on pairs: nothing where every pair is
/// decided, and else a set or an undecided pair.
///
/// The set is the first component of the pairs in the middle that both children gain by, if there is one: it has three
/// cities or more, as has the rest, its crossing weight is at least a quarter above two lengths and below four, and the
/// path has no condition on it or its complement (Applegate, Bixby, Chvátal and Cook 2006 branch on such cliques). The
/// pair is the first of those whose value is nearest to a half. O(n^2) for n cities, and the path once.
pub fn choose(alloc: Global, x: &Frac, path: &Path) -> Result<Option<Branch>, AllocError>
    requires cities { x.now.n ≡ path.now.n }
    ensures none { IfOk result (λ b. IsNone b ↔ DecidesAll path.now.n path.now.conditions) }
    ensures some { IfOk result (λ b. IfSome b (IsSplit path.now.n path.now.conditions)) }
    ensures choice { IfOk result (λ b. IfSome b (IsChoice x.now path.now.conditions)) }
{
    let table = table_of(alloc, x.n(), path)?;
    let Some(open) = nearest_open(x, &table) else {
        return Ok(None);
    };
    let sets = components(alloc, x, MIDDLE, 0x10_0000 - MIDDLE)?;
    Ok(Some(match first_fit(alloc, x, path, &sets)? {
        Some(set) => Branch::Clique(set),
        None => Branch::Edge(open.u, open.v),
    }))
}
