//! What a proof text is: the definitions of `specs/` (lines, values, texts, which of them are accepted, and the verdict that a
//! verifier tells), and the laws that an accepted text is a proof, that a restart body without an open leaf is one, and that fixed
//! pairs have no depth. Writer, reader and verifier share them. There is no program code in this crate.
#![tactic(auto)]

ghost use Rattle.certdef.specs.Laws.{AcceptedTextIsBelow, FixedPairsHaveNoDepth};
ghost use Rattle.certdef.specs.Restarts.{ClosedIsAccepted};

use tspdef::accepted_is_below;

/// Where a text is accepted with a bound, no tour is shorter, whoever wrote it.
pub fn accepted_text_is_below()
    ensures { AcceptedTextIsBelow }
{
    accepted_is_below();
}

/// A sound proof, as a restart body has it, is an accepted one where no leaf is open.
pub fn closed_is_accepted()
    ensures { ClosedIsAccepted }
{}

/// The depths of a tree name the same conditions from the root of an instance with fixed pairs as from a root without them.
pub fn fixed_pairs_have_no_depth()
    ensures { FixedPairsHaveNoDepth }
{}
