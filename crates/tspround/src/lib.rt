//! The search of one worker by a boss: the least open node first.
//!
//! - [`alone`] lets a worker close or split open nodes of a boss for some turns. [`alone_counted`] adds up what that cost, in
//!   [`Effort`].
//! - [`report_over`] makes the set that a report splits by one of the instance's cities.
//! - [`sure_work_is_taken`]: the law that a sure worker settles a node at each turn.
//! - [`nothing_is_split_at_the_start`], [`splits_stay`] and [`few_cities_end`]: the laws of the splits since the start.
#![tactic(auto)]

mod held;
mod laws;
mod opening;
mod order;
mod room;
mod round;
mod searching;
mod seat;
mod sent;
mod serving;
mod sets;

pub use laws::{few_cities_end, nothing_is_split_at_the_start, splits_stay, sure_work_is_taken};
pub use opening::Opening;
pub use round::{Round, rounds};
pub use searching::{alone, alone_counted};
pub use seat::Counts;
pub use sets::report_over;
pub use worker::Effort;
