//! The law of lists of calls.
ghost use Rattle.slotstore.specs.Runs.{NothingIsLost};

/// For every list of begins, loads and saves on slots that tell, whatever their outcomes, and with crashes anywhere: what a crash
/// leaves, what a load gives and what a begin finds is the body last acknowledged, or the one that the last begin found, or one
/// that was handed in after it. The steps of such a list are the clauses `does` of [`Store`](crate::Store)'s calls.
pub fn nothing_is_lost()
    ensures { NothingIsLost }
{}
