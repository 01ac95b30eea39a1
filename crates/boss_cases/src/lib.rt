//! Tests of `bossx`: worked books, tables of events with the reply to each.
//!
//! There is nothing to use here. The tests stand beside `bossx` and not in it, so that both are proved side by side.
#![tactic(auto)]

#[cfg(test)]
mod acts;
#[cfg(test)]
mod tests;
