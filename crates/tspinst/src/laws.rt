//! Laws of texts, each the contract of a function here.

ghost use Rattle.tspinst.specs.Laws.{TextsAreJudged, AllLinesAreRead, HeadersAreLines};
ghost use Rattle.tspinst.specs.Fixings.{CyclesAreTold};
ghost use Rattle.tspinst.specs.Plain.{PlainPointsAreRead, PlainMatricesAreRead};

/// Bytes are the text of exactly one instance, or have exactly one first refusal.
pub fn texts_are_judged()
    ensures { TextsAreJudged }
{}

/// No line of a text is left out: more lines than it has words change nothing.
pub fn all_lines_are_read()
    ensures { AllLinesAreRead }
{}

/// The definition speaks of words, and a header is that of its line: the keyword up to the first blank or colon, then
/// blanks, at most one colon, blanks, and the value, of which the first word counts.
pub fn headers_are_lines()
    ensures { HeadersAreLines }
{}

/// A plain text of points is read as exactly their distances, and a plain text of a table as exactly that table.
pub fn plain_texts_are_read()
    ensures points { PlainPointsAreRead }
    ensures matrices { PlainMatricesAreRead }
{}

/// Which cities fixed pairs join, and whether they leave one out, is told as it is: two cities are joined exactly where each set
/// that no pair leaves has both or none.
pub fn cycles_are_told()
    ensures { CyclesAreTold }
{}
