//! Closings and their bounds.
#![tactic(auto)]

mod bounds;
mod closing;
mod decided;
mod duals;
mod fitting;
mod groups;
mod holding;
mod light;
mod light_rows;
mod numbers;
mod priced;
mod rays;
mod rounding;
mod rows;
mod spread;
mod trail;
mod weights;

pub use bounds::{bound, bound_on, needed};
pub use closing::{Closing, Report};
pub use fitting::{Fit, fits, fits_on};
pub use priced::{Priced, Pricing};
pub use rays::ray;
pub use rounding::round;
pub use trail::{Step, Trail};
