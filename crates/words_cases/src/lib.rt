//! Tests of command lines, of the line that tells how far a run is, and of refusals in words.
//!
//! There is nothing to use here. The tests stand beside `tspwords`, `progress` and `wording` and not in them, so that each is proved
//! once: a crate with tests in it is proved a second time with them.
#![tactic(auto)]

#[cfg(test)]
mod command_lines;
#[cfg(test)]
mod progress_lines;
#[cfg(test)]
mod refusals_in_words;
