//! Tests of whole runs of each command in which one call fails, at each place in turn: a read, a write, a call on a slot. And runs that
//! read and write one byte at a time, and hostile texts with what is told of them.
//!
//! There is nothing to use here. The tests stand beside `tspengine` and not in it, so that both are proved side by side.
#![tactic(auto)]

#[cfg(test)]
mod cases;
#[cfg(test)]
mod hostile_texts;
#[cfg(test)]
mod runs;
#[cfg(test)]
mod tests;
