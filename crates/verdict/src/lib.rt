//! The laws of proof texts: lines are read as what they are spelled from, no text begins another, the verdict is yes exactly on
//! accepted texts, a refusal is of the front of a text and says what is wrong there, bytes may come in pieces, and a reader of the
//! form alone gives exactly the items of a value. There is no program code in this crate.
#![tactic(auto)]

ghost use Rattle.verdict.specs.Laws.{LinesAreExact, YesIsAcceptedText, ReadsInPieces, ReadIsReadable};
ghost use Rattle.verdict.specs.Bodies.{YesIsBodyText, ResumedIsSound};
ghost use Rattle.verdict.specs.Parts.{BodiesSayTheirParts};
ghost use Rattle.verdict.specs.Spellings.{SpellingsAreApart, NoTextBeginsAnother, BytesHaveOneValue};
ghost use Rattle.verdict.specs.Refusals.{RefusalsAreOfTheFront, TrailingIsBehindAccepted};
ghost use Rattle.verdict.specs.WrongValues.{RefusedValuesAreWrong, RefusedLinesAreWrong};
ghost use Rattle.verdict.specs.Decided.{ToursAreDecided, StepsAreDecided, ToursOfInstancesAreDecided, CanonicalIsDecided, ToursFromOneAreDecided, ProperIsDecided, CutsAreDecided, CliquesAreDecided, ClosedLeavesAreDecided};

/// Bytes are the line of an item within its bounds exactly where they are read as that item.
pub fn lines_are_exact()
    ensures { LinesAreExact }
{}

/// The verdict on bytes is yes with a length and a bound exactly where they are a text that is accepted with them.
pub fn yes_is_accepted_text()
    ensures { YesIsAcceptedText }
{}

/// The verdict on bytes as a restart body is yes with a length and a bound exactly where they are the text of one, and then they say
/// its parts as they are read. The tree that a search goes on from, with leaves open that are too weak for its level, is sound for it.
pub fn yes_is_body_text()
    ensures exact { YesIsBodyText }
    ensures parts { BodiesSayTheirParts }
    ensures sound { ResumedIsSound }
{}

/// Bytes may be read in pieces.
pub fn reads_in_pieces()
    ensures { ReadsInPieces }
{}

/// A reader of the form alone is at the end exactly after the lines of a value of the grammar, and gives its items.
pub fn read_is_readable()
    ensures { ReadIsReadable }
{}

/// Each test of the machine is true exactly where the definition that it repeats holds.
pub fn tests_decide()
    ensures tours { ToursAreDecided }
    ensures steps { StepsAreDecided }
    ensures tours_of_instances { ToursOfInstancesAreDecided }
    ensures canonical { CanonicalIsDecided }
    ensures tours_from_one { ToursFromOneAreDecided }
    ensures proper { ProperIsDecided }
    ensures cuts { CutsAreDecided }
    ensures cliques { CliquesAreDecided }
    ensures closed_leaves { ClosedLeavesAreDecided }
{}

/// No text of a value of the grammar begins that of another one, and bytes are the text of at most one value.
pub fn spellings_are_apart()
    ensures apart { SpellingsAreApart }
    ensures begins { NoTextBeginsAnother }
    ensures one { BytesHaveOneValue }
{}

/// A refusal is told once a line is read: every text that begins with the lines up to it has the same refusal, fewer lines hold none,
/// and what is wrong with the line is what the refusal says. An end that comes too early and too many bytes stand apart. Bytes behind a
/// tree stand behind an accepted text.
pub fn refusals_are_of_the_front()
    ensures told { RefusalsAreOfTheFront }
    ensures trailing { TrailingIsBehindAccepted }
{}

/// Each value of the grammar whose text is refused, or begins with lines that are refused, has what the refusal is told for.
pub fn refused_values_are_wrong()
    ensures values { RefusedValuesAreWrong }
    ensures lines { RefusedLinesAreWrong }
{}
