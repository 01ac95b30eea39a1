//! From a search to a proof that no tour is shorter than a bound, or to a body to go on from.
ghost use Rattle.std.specs.Prelude.{◌≡◌, ◌+◌, ◌*◌, ◌<◌, ◌≤◌, IfOk, length};
ghost use Rattle.tspdef.specs.Trees.{open_leaves};
ghost use Rattle.treebook.specs.Laws.{IsGreatestBound};
ghost use Rattle.treebook.specs.Tables.{tree_of};
ghost use Rattle.bossx.specs.Books.{best_length};
ghost use Rattle.tspengine.specs.Searches.{start_in, IsSearch, IsTextOfBook};
ghost use Rattle.tspengine.specs.Outcomes.{IsOutcome, IsProof};

use crate::texts::{closed_text, length_text, stopped_text};
use bossx::Boss;
use certdef::closed_is_accepted;
use certform::{body, tables_fit, written_is_faithful};
use std::alloc::{AllocError, Global};
use treebook::tables_are_sound;
use tspdef::{accepted_is_below, tours_are_cycles};

/// What came of a search.
#[derive(Drop)]
pub enum Outcome {
    /// No node is open.
    Closed(Closed),
    /// The budget is settled and a node is open: the body to go on from, and the text to print.
    Stopped { body: Vec<u8>, printed: Vec<u8> },
}

/// A proof that no tour is shorter than a bound, which is the tour's length or misses it by no more than the gap.
#[derive(Drop)]
pub struct Closed {
    pub length: u64,
    pub bound: u64,
    pub proof: Vec<u8>,
    /// The answer with the tour.
    pub printed: Vec<u8>,
    /// The line of the length alone.
    pub line: Vec<u8>,
}

/// The text of a search's best tour and tree, with the bound that it shows.
#[derive(Drop)]
pub(crate) struct SearchText {
    pub(crate) bytes: Vec<u8>,
    pub(crate) bound: u64,
}

/// What came of a search that has ended: no node is open, or the budget is settled.
pub(crate) fn outcome_of(alloc: Global, boss: &Boss) -> Result<Outcome, AllocError>
    requires search { IsSearch boss.now }
    requires ended { 0 < open_leaves (tree_of boss.now.tree.nodes) → boss.now.settled ≡ boss.now.budget }
    ensures outcome { IfOk result (IsOutcome boss.now.instance boss.now.budget boss.now.gap (start_in boss.now)) }
    ensures closed { open_leaves (tree_of boss.now.tree.nodes) ≡ 0 → IfOk result IsProof }
{
    let text = text_of(alloc, boss)?;
    let (_, tree) = boss.snapshot();
    if tree.open_nodes() == 0 {
        Ok(Outcome::Closed(proof_of(alloc, boss, text)?))
    } else {
        let printed = stopped_text(alloc, boss.best_length(), tree.open_nodes())?;
        Ok(Outcome::Stopped {
            body: text.bytes,
            printed,
        })
    }
}

/// The text of a search at any time: with no node open it is a proof, else a body to go on from.
pub(crate) fn text_of(alloc: Global, boss: &Boss) -> Result<SearchText, AllocError>
    requires { IsSearch boss.now }
    ensures { IfOk result (λ w. IsTextOfBook boss.now w.bound w.bytes.items) }
{
    tables_fit();
    written_is_faithful();
    tours_are_cycles();
    tables_are_sound();
    let bound = bound_of(boss);
    let _instance = boss.instance().n();
    let (tour, tree) = boss.snapshot();
    let _count = tree.nodes();
    let bytes = body(alloc, boss.instance(), tour, tree, bound)?;
    Ok(SearchText { bytes, bound })
}

/// The greatest bound, at most the best tour's length, that the tree bears: without a gap the length itself, and no leaf is priced.
fn bound_of(boss: &Boss) -> u64
    ensures { IsGreatestBound boss.now.instance (best_length boss.now) (tree_of boss.now.tree.nodes) result }
{
    tables_are_sound();
    let (_, tree) = boss.snapshot();
    let length = boss.best_length();
    if boss.gap() == 0 {
        return length;
    }
    tree.greatest_bound(boss.instance(), length)
}

/// The proof, with the texts to print.
fn proof_of(alloc: Global, boss: &Boss, text: SearchText) -> Result<Closed, AllocError>
    requires text { IsTextOfBook boss.now text.bound text.bytes.items }
    requires none_open { open_leaves (tree_of boss.now.tree.nodes) ≡ 0 }
    ensures { IfOk result (λ c. IsOutcome boss.now.instance boss.now.budget boss.now.gap (start_in boss.now) (Outcome.Closed c)) }
{
    accepted_is_below();
    closed_is_accepted();
    tours_are_cycles();
    let _instance = boss.instance().n();
    let SearchText { bytes, bound } = text;
    let length = boss.best_length();
    let (best, _) = boss.snapshot();
    let tour = best.canonical(alloc)?;
    let printed = closed_text(alloc, length, bound, tour.cities())?;
    let line = length_text(alloc, length)?;
    Ok(Closed {
        length,
        bound,
        proof: bytes,
        printed,
        line,
    })
}
