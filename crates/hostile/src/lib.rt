//! Rounds against whoever may be out there: a worker that makes things up, and posts that lose, repeat and delay.
//!
//! It has tests alone. A round's clauses say that what comes out is right whatever worker, posts and gate do; here such rounds run, and
//! each answer is compared with the least of all tours, each proof and each body is read back, and the reports that came to the boss
//! are counted against the fates that the posts told.
#![tactic(auto)]

#[cfg(test)]
mod counting;
#[cfg(test)]
mod draws;
#[cfg(test)]
mod fates;
#[cfg(test)]
mod games;
#[cfg(test)]
mod honest;
#[cfg(test)]
mod judging;
#[cfg(test)]
mod liars;
#[cfg(test)]
mod lies;
#[cfg(test)]
mod tallies;
#[cfg(test)]
mod tests;
