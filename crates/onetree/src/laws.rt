//! Laws of the definitions.

ghost use Rattle.onetree.specs.Answers.{AnswersAreOne};
ghost use Rattle.onetree.specs.Laws.{ToursAreOneTrees, ToursMeetTwice, HeldKarpIsBelow, NoTourIsShorter, HeldKarpIsOne, WrittenIsAccepted};

/// A tour is a one-tree that meets each city twice, so that the Held-Karp value of any duals is a lower bound on the length of each
/// tour (Held and Karp 1970); and duals have one such value.
pub fn tours_are_one_trees()
    ensures tours { ToursAreOneTrees }
    ensures twice { ToursMeetTwice }
    ensures below { HeldKarpIsBelow }
    ensures shorter { NoTourIsShorter }
    ensures one { HeldKarpIsOne }
{}

/// Bytes have one answer: they are accepted with one bound, or refused with one number at one line.
pub fn answers_are_one()
    ensures { AnswersAreOne }
{}

/// The certificate that is written for some duals is accepted with its bound.
pub fn written_is_accepted()
    ensures { WrittenIsAccepted }
{}
