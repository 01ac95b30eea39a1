//! Texts that `certform` writes and lines that `certline` reads, byte by byte.
//!
//! There is nothing to use here. The tests stand beside `certform` and `certline` and not in them, so that each is proved once: a crate
//! with tests in it is proved a second time with them.
#![tactic(auto)]

#[cfg(test)]
mod lines;
#[cfg(test)]
mod texts;
