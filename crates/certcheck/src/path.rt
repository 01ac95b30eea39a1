//! The way through a tree in preorder, by the path of the node alone.
ghost use Rattle.std.specs.Prelude.{◌≡◌, true, false, [], ◌∷◌, IfOk};
ghost use Rattle.std.specs.Option.{option_map};
ghost use Rattle.branchx.specs.Cond.{condition_of};
ghost use Rattle.certcheck.specs.Paths.{second, later};

use crate::marked::MarkedPath;
use branchx::Cond;
use std::alloc::{AllocError, Global};

/// Goes to the next second child, and says whether there is one. The fixed pairs stay on the path. O(1) for each condition that is left.
pub(crate) fn next_child(alloc: Global, path: &mut MarkedPath) -> Result<bool, AllocError>
    ensures more { IfOk result (λ found. found ≡ true → (path.new.conditions ∷ later path.new.conditions) ≡ later path.old.conditions) }
    ensures none { IfOk result (λ found. found ≡ false → later path.old.conditions ≡ []) }
    ensures same { path.new.n ≡ path.old.n }
{
    while let Some(last) = path.pop() {
        if let Some(cond) = second_of(last) {
            path.push(alloc, cond)?;
            return Ok(true);
        }
    }
    Ok(false)
}

/// The second child's condition, of a first child's.
fn second_of(last: Cond) -> Option<Cond>
    ensures { option_map condition_of result ≡ second (condition_of last) }
{
    match last {
        Cond::Absent(u, v) => Some(Cond::Present(u, v)),
        Cond::Two(set) => Some(Cond::Four(set)),
        Cond::Fixed(_, _) | Cond::Present(_, _) | Cond::Four(_) => None,
    }
}
