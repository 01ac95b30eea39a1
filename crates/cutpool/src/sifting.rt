//! Which of some cuts are worth a row.
ghost use Rattle.std.specs.Prelude.{◌≡◌, ◌≤◌, true, take, length, IfOk};
ghost use Rattle.std.specs.List.{All, filter};
ghost use Rattle.cutpool.specs.Nears.{AreRows};
ghost use Rattle.cutpool.specs.Pool.{is_worth, IsWorthAdding};

use crate::nears::{Row, rows_of};
use crate::violated::is_violated;
use cutform::Cut;
use cyc::Frac;
use std::alloc::{AllocError, Global};

/// Of some cuts those that are of as many cities as the values and that these violate by 2^10 units or more: the first
/// ones, `most` at most.
///
/// A cut costs what it costs [`CutPool::violated`](crate::CutPool::violated).
pub fn worth_adding(
    alloc: Global,
    x: &Frac,
    cuts: Vec<Cut>,
    most: usize,
) -> Result<Vec<Cut>, AllocError>
    ensures found { IfOk result (λ found. found.items ≡ take most (filter (is_worth x.now) cuts.items)) }
    ensures worth { IfOk result (λ found. All (IsWorthAdding x.now) found.items) }
    ensures few { IfOk result (λ found. length found.items ≤ most) }
{
    let rows = rows_of(alloc, x)?;
    let mut found = Vec::new(alloc);
    for cut in cuts {
        if is_worth(x, &rows, &cut) {
            found.push(cut)?;
        }
    }
    found.truncate(most);
    Ok(found)
}

/// Whether a cut is of as many cities as the values, and these violate it by 2^10 units or more.
fn is_worth(x: &Frac, rows: &[Row], cut: &Cut) -> bool
    requires { AreRows x.now.entries rows.now }
    ensures value { result ≡ is_worth x.now cut.now }
    ensures worth { result ≡ true → IsWorthAdding x.now cut.now }
{
    cut.n() == x.n() && is_violated(x, rows, cut)
}
