//! Which pairs a path decides.
ghost use Rattle.std.specs.Prelude.{◌≡◌, ℕ, ◌+◌, ◌*◌, ◌<◌, false, length, slice_index_or, IfOk};
ghost use Rattle.tspdef.specs.Paths.{IsPair, IsPath};
ghost use Rattle.branchx.specs.Cond.{conditions_of};
ghost use Rattle.branchx.specs.Table.{IsTableOf};

use crate::cond::Cond;
use crate::path::Path;
use std::alloc::{AllocError, Global};

/// Which pairs are decided: each pair u < v at place u * n + v, so that no pair needs a look through the path.
pub fn table_of(alloc: Global, n: u32, path: &Path) -> Result<Vec<bool>, AllocError>
    requires { n ≡ path.now.n }
    ensures { IfOk result (λ t. IsTableOf n path.now.conditions t.items) }
{
    let size = n as usize;
    let mut table = vec![in alloc; false; size * size]?;
    mark_decided(n, path.conditions(), &mut table);
    Ok(table)
}

fn mark_decided(n: u32, conditions: &[Cond], table: &mut [bool])
    requires empty { (k : ℕ) → slice_index_or table.old k false ≡ false }
    requires square { length table.old ≡ n * n }
    requires is_path { IsPath n (conditions_of conditions.now) }
    ensures { IsTableOf n (conditions_of conditions.now) table.new }
{
    for cond in conditions {
        if let Some((u, v)) = cond.pair() {
            table[place(n, u, v)] = true;
        }
    }
}

/// Where the table has a pair.
pub fn place(n: u32, u: u32, v: u32) -> usize
    requires { IsPair n u v }
    ensures value { result ≡ u * n + v }
    ensures within { result < n * n }
{
    u as usize * n as usize + v as usize
}
