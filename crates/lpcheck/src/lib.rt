//! The exact check of an answer of a linear program over rows of city sets, in whole units of 2^-20, and duals at rest.
//! Nothing here searches: whoever proposes values and duals, this crate says what they are worth.
#![tactic(auto)]

mod added;
mod answer;
mod cells;
mod check;
mod codes;
mod column;
mod leap;
mod numbers;
mod piece;
mod place;
mod reduced;
mod rest;
mod row;
mod step;

pub use added::{falls_any, misses_any};
pub use answer::{Judged, judge};
pub use cells::{Cell, Cells, grow_table};
pub use column::Column;
pub use reduced::reduced_costs;
pub use row::{Row, Sense};
