//! The laws of books.
ghost use Rattle.bossx.specs.Laws.{StepsKeepBooks, RunsKeepBooks, BooksStaySmall, BooksCover, StepsCharge, RunsCharge, StepsHaveNoChoice, RunsHaveNoChoice, PricedAreReported, SureReportsAreTaken};

/// Whatever events come, in whatever order, how often and with whatever data, a book stays one: its best is a tour, its tree is
/// sound, held leases name open nodes, the budget is kept, and the log replays. A book stays small, and each tour below its level
/// lies under an open node.
pub fn books_are_kept()
    ensures step { StepsKeepBooks }
    ensures run { RunsKeepBooks }
    ensures small { BooksStaySmall }
    ensures cover { BooksCover }
{}

/// Settled nodes rise by one exactly where a report is taken, which alone changes the tree, and leases by one exactly where one is
/// granted. A lost lease is not charged to the budget.
pub fn events_are_charged()
    ensures step { StepsCharge }
    ensures run { RunsCharge }
{}

/// No event has a choice: the book and the event determine the reply and the next book.
pub fn events_have_no_choice()
    ensures step { StepsHaveNoChoice }
    ensures run { RunsHaveNoChoice }
{}

/// A closing that was priced for the boss's instance, on the node's path, is answered as the closing alone is.
pub fn priced_closings_are_reports()
    ensures { PricedAreReported }
{}

/// What sure work on a node reports is taken, once the tour that it found is offered, while the node is open and the budget is not
/// spent.
pub fn sure_reports_are_taken()
    ensures { SureReportsAreTaken }
{}
