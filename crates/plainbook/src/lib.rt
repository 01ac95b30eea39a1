//! A plain book, which tests compare the boss with: the table of answers as it is read, over lists that are searched from the front.
//! It is for five points and the sum of their differences, and knows a set of cities by its bits. What it answers has no contract, so
//! that nothing that is proved of the boss can hide in it: it is safe, and it ends.
//!
//! - [`PlainBook`] has the book; [`Said`], [`Duals`], [`Told`] are what is said of nodes and what leads to them.
//! - [`five_points`] and [`boss`] make the real boss that begins as the book does, with the tour [`OPENING`].
//! - [`Draw`] draws reports, tours, leases, and what a book begins with, a [`Start`].
#![tactic(auto)]

mod book;
mod draws;
mod duals;
mod starts;
mod tours;

pub use book::{Fate, PlainBook, PlainLease, PlainNode, Said};
pub use draws::Draw;
pub use duals::{CITIES, Duals, POINTS, Told, holds, number, tour_length};
pub use starts::{OPENING, Start, StartError, boss, five_points};

#[cfg(test)]
mod tests;
