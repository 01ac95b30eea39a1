//! A restart body as the tree and the tour that a search goes on from.
ghost use Rattle.std.specs.Prelude.{◌≡◌, ℕ, ◌+◌, ◌*◌, ◌≤◌, not, ◌&&◌, nat_le, List, ◌∷◌, length, Err, IfOk};
ghost use Rattle.treebook.specs.Tables.{tree_of};
ghost use Rattle.verdict.specs.Parts.{the_tour};
ghost use Rattle.certcheck.specs.Parts.{parts_of};
ghost use Rattle.resume_form.specs.Growing.{BeginsWithTour};
ghost use Rattle.resume_form.specs.Resumed.{IsResumed, IsRefused};

use crate::error::{ReadError, told};
use crate::growing::grow;
use certcheck::{Part, read_body};
use cyc::Tour;
use std::alloc::Global;
use std::collections::VecDeque;
use treebook::Tree;
use tspinst::Instance;
use verdict::yes_is_body_text;

/// The most parts of a body, with two for each split of the budget: a tour, and the nodes.
const MOST: u64 = 1_048_577;

/// The tree and the tour of a restart body, or its first refusal.
///
/// Each leaf is priced anew. One that suffices for the bound that the body tells and not for the tour's length less the gap becomes open.
/// The time is that of a check of the body, and one more pass over all pairs for a leaf where the bound told is below that level.
pub fn read(
    alloc: Global,
    instance: &Instance,
    body: &[u8],
    budget: u32,
    gap: u64,
) -> Result<(Tree, Tour), ReadError>
    ensures read { IfOk result (λ r. IsResumed instance.now budget gap body.now (tree_of r.0.nodes) r.1) }
    ensures cities { IfOk result (λ r. r.0.n ≡ instance.now.n) }
    ensures fixed { IfOk result (λ r. r.0.fixed ≡ instance.now.fixed) }
    ensures few { IfOk result (λ r. length r.0.nodes + 2 * budget ≤ 1048576) }
    ensures refused { (k : ℕ) → (at : ℕ) → result ≡ Err (ReadError.Refused k at) → IsRefused instance.now budget gap body.now k at }
{
    yes_is_body_text();
    let _few = instance.n();
    let said = match read_body(alloc, instance, body) {
        Ok(said) => said,
        Err(trouble) => return Err(told(trouble)),
    };
    if !has_room(&said.parts, said.full, budget) {
        return Err(ReadError::Refused(5, 0));
    }
    let level = said.length.saturating_sub(gap);
    let mut nodes = said.parts;
    let tour = take_tour(&mut nodes);
    let tree = grow(alloc, instance, nodes, said.bound, level)?;
    Ok((tree, tour))
}

/// Whether all parts are there, and the nodes and two for each split of the budget are not too many.
fn has_room(parts: &VecDeque<Part>, full: bool, budget: u32) -> bool
    ensures { result ≡ (not full && nat_le (length parts.now.items + 2 * budget) 1048577) }
{
    !full && parts.len() as u64 + 2 * u64::from(budget) <= MOST
}

/// Takes the tour, which is the first part.
fn take_tour(parts: &mut VecDeque<Part>) -> Tour
    requires { BeginsWithTour (parts_of parts.old.items) }
    ensures { parts_of parts.old.items ≡ the_tour result ∷ parts_of parts.new.items }
{
    match parts.pop_front() {
        Some(Part::Tour(tour)) => tour,
        _ => unreachable!(),
    }
}
