//! Tests of `tspengine`: whole runs of its commands on small instances, with fixed edges, and one in which two grunts meet.
//!
//! There is nothing to use here. The tests stand beside `tspengine` and not in it, so that both are proved side by side.
#![tactic(auto)]

#[cfg(test)]
mod fixed_edges;
#[cfg(test)]
mod meeting_runs;
#[cfg(test)]
mod runs;
#[cfg(test)]
mod tests;
