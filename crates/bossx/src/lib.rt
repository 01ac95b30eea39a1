//! The boss of a search: it lends open nodes to grunts, judges what they report, whatever that is, and keeps the tree, the log and
//! the best tour.
//!
//! - [`Boss`] has the book. [`Boss::start`] takes all its room; no later call takes memory, so none can fail while a node is lent.
//! - [`Asked`], [`Reported`], [`Expiry`], [`Offered`], [`Front`] are its answers, [`Brought`] is what a report brings.
//! - [`Event`] and [`Reply`] are calls and answers as values: [`Boss::play`] does a list of events.
//! - [`first_off`] tells which fixed pair a tour lacks.
//! - [`books_are_kept`], [`events_are_charged`], [`events_have_no_choice`]: the laws over all lists of events, with any data.
//! - [`priced_closings_are_reports`], [`sure_reports_are_taken`]: the laws for those who price, and for those who work.
#![tactic(auto)]

mod boss;
mod brought;
mod events;
mod laws;
mod parts;
mod replies;
mod tours;

pub use boss::Boss;
pub use brought::Brought;
pub use events::{Event, Reply};
pub use laws::{
    books_are_kept, events_are_charged, events_have_no_choice, priced_closings_are_reports,
    sure_reports_are_taken,
};
pub use replies::{Asked, Expiry, Front, Offered, Reported};
pub use tours::first_off;
