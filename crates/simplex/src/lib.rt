//! Linear programs over rows of city sets, solved in whole numbers by a dual simplex whose answers are checked.
#![tactic(auto)]

mod answer;
mod basis;
mod columns;
mod engine;
mod lp;
mod made;
mod trial;

pub use answer::LpAnswer;
pub use basis::Basis;
pub use lp::Lp;
pub use lpcheck::{Column, Row, Sense};
pub use trial::Trial;
