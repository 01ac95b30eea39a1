//! Tests of `tspengine`: whole runs that go on with what the slots hold, of tapes, of bounds, and in which a call fails.
//!
//! There is nothing to use here. The tests stand beside `tspengine` and not in it, so that both are proved side by side.
#![tactic(auto)]

#[cfg(test)]
mod bounds_runs;
#[cfg(test)]
mod failing_calls;
#[cfg(test)]
mod replay_runs;
#[cfg(test)]
mod resumed_runs;
#[cfg(test)]
mod runs;
