//! What is brought for a node.

use branchx::Branch;
use pricer::{Priced, Report};

/// What a report says of its node, and how.
#[derive(Drop)]
pub enum Brought {
    /// A report as it is. The children of a split have their parent's key.
    Plain(Report),
    /// A branch, with the key of both children.
    Hinted(Branch, i64),
    /// A closing that comes with its bound.
    Weighed(Priced),
}
