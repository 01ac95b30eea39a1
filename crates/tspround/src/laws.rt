//! The laws of a worker's turns.
ghost use Rattle.std.specs.Prelude.{◌≡◌, ℕ, ◌≤◌, List};
ghost use Rattle.tspdef.specs.Instances.{Instance};
ghost use Rattle.tspdef.specs.Trees.{Tree};
ghost use Rattle.treebook.specs.Tables.{Node, fresh, tree_of};
ghost use Rattle.treebook.specs.Tree.{Table};
ghost use Rattle.bossx.specs.Books.{Book};
ghost use Rattle.bossx.specs.Kept.{IsStart};
ghost use Rattle.tspround.specs.Splits.{SplitBy, SplitSince};
ghost use Rattle.tspround.specs.Alone.{IsSplitBy};
ghost use Rattle.tspround.specs.Laws.{SureWorkIsTaken, FewCitiesEnd};

use bossx::events_have_no_choice;
use worker::Worker;

/// What a sure worker reports is taken while its node is open and the budget is not spent, once the tour that it found is offered.
pub fn sure_work_is_taken()
    ensures { SureWorkIsTaken }
{
    events_have_no_choice();
}

/// A boss at its start has split nothing.
pub fn nothing_is_split_at_the_start<W: Worker>()
    ensures { (instance : Instance) (tree : Table) (tour : List ℕ) (budget grunts gap : ℕ) (b : Book)
        → IsStart instance tree tour budget grunts gap b → IsSplitBy W.splits b }
{}

/// Splits that may be where tours of one length are known may be so where longer ones are. Where the start was the root alone, these
/// are all splits.
pub fn splits_stay<W: Worker>()
    ensures from_root { (instance : Instance) (l m gap : ℕ) (first : List Node) (new : Tree) → first ≡ fresh
        → l ≤ m → SplitSince W.splits instance l gap (tree_of first) new → SplitBy W.splits instance m gap new }
    ensures since { (instance : Instance) (l m gap : ℕ) (first new : Tree)
        → l ≤ m → SplitSince W.splits instance l gap first new → SplitSince W.splits instance m gap first new }
{}

/// At most five cities have ten pairs: 2,047 nodes for each that was open at the start are all that there can be, where all splits
/// are needed.
pub fn few_cities_end()
    ensures { FewCitiesEnd }
{}
