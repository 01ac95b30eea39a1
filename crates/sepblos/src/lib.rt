//! Blossoms that values on pairs of cities violate, and what any search for combs needs: the comb of a handle and teeth
//! where the values violate it.
//!
//! - [`blossoms`] takes the components of the pairs in the middle as handles and the pairs near one length that leave a
//!   handle as its teeth (Padberg and Rinaldi 1990).
//! - [`violated_comb`] makes the comb of a handle and teeth, where there is one and it is worth a cut.
#![tactic(auto)]

ghost use Rattle.std.specs.Prelude.{◌≡◌, IfOk, IfSome, MatchOption};
ghost use Rattle.std.specs.List.{All};
ghost use Rattle.tspdef.specs.Sets.{IsSet};
ghost use Rattle.tspdef.specs.Cuts.{Cut as AnyCut};
ghost use Rattle.sepblos.specs.Violated.{IsWorth};
ghost use Rattle.sepblos.specs.Blossoms.{IsBlossom, AreBlossoms};

mod marks;
mod teeth;
mod violated;
mod wider;

use cutform::Cut;
use cyc::{CitySet, Frac};
use fracgraph::components;
pub use marks::{is_marked, mark};
use std::alloc::{AllocError, Global};
pub use teeth::{NEAR_ONE, pair_set, set_of};
pub use violated::violated_comb;
pub use wider::wider_blossoms;

/// How far a value has to be from 0 and from one length to be in the middle, in units.
const MIDDLE: u32 = 0x400;

/// The blossoms that the values violate by 2^10 units or more, in order of the least city of their handles.
///
/// The handles are the components of the pairs whose value is above 2^10 and below one length less 2^10 units. The teeth of
/// a handle are the pairs with exactly one city in it and a value of one length less 2^10 units or more, in the order of the
/// entries; where they are an odd number, three or more, and no two meet, the comb is a blossom (Edmonds 1965; this heuristic
/// is that of Padberg and Rinaldi 1990). A handle of all cities has no teeth. Each handle takes a pass over
/// the entries, and one more where it has a comb: O(entries * handles), beside what the components take.
pub fn blossoms(alloc: Global, x: &Frac) -> Result<Vec<Cut>, AllocError>
    ensures blossoms { IfOk result (λ cuts. AreBlossoms x.now cuts.items) }
    ensures worth { IfOk result (λ cuts. All (IsWorth x.now) cuts.items) }
{
    let sets = components(alloc, x, MIDDLE, 0x10_0000 - MIDDLE)?;
    let mut cuts = Vec::new(alloc);
    for set in &sets {
        if let Some(cut) = blossom(alloc, x, set)? {
            cuts.push(cut)?;
        }
    }
    Ok(cuts)
}

/// The blossom of a handle, where it has one that is violated.
fn blossom(alloc: Global, x: &Frac, handle: &CitySet) -> Result<Option<Cut>, AllocError>
    requires cities { handle.now.n ≡ x.now.n }
    requires set { IsSet x.now.n handle.now.cities }
    ensures blossom { IfOk result (λ c. MatchOption c ((cut : AnyCut) → ¬ IsBlossom x.now handle.now cut) (IsBlossom x.now handle.now)) }
    ensures worth { IfOk result (λ c. IfSome c (IsWorth x.now)) }
{
    let teeth = teeth::teeth_of(alloc, x, handle)?;
    let cut = violated_comb(alloc, x, handle, teeth)?;
    Ok(cut)
}
