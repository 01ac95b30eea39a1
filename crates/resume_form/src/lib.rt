//! Restart bodies: the tree and the tour that a search goes on from, read out of any bytes, or the first refusal.
#![tactic(auto)]

mod error;
mod growing;
mod laws;
mod reading;

pub use error::ReadError;
pub use laws::{bodies_are_read, bodies_have_one_reading};
pub use reading::read;
