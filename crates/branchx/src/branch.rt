//! By what a node is split.
ghost use Rattle.std.specs.Prelude.{◌≡◌, IfOk};

use cyc::CitySet;
use std::alloc::{AllocError, Global};

/// What the two children of a node disagree on.
#[derive(Debug, PartialEq, Eq, Drop)]
pub enum Branch {
    /// Whether two cities, the lower one first, are joined.
    Edge(u32, u32),
    /// Whether the set is crossed twice, or four times or more.
    Clique(CitySet),
}

impl Branch {
    /// An equal branch.
    pub fn copy(&self, alloc: Global) -> Result<Branch, AllocError>
        ensures { IfOk result (λ b. b ≡ self.now) }
    {
        Ok(match self {
            Branch::Edge(u, v) => Branch::Edge(*u, *v),
            Branch::Clique(set) => Branch::Clique(set.copy(alloc)?),
        })
    }
}
