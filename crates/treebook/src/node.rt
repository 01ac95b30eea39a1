//! Nodes of the tree.
ghost use Rattle.std.specs.Prelude.{◌≡◌, ◌↔◌, ◌==◌, if◌then◌else◌, true, IsTrue};
ghost use Rattle.std.specs.Option.{option_map};
ghost use Rattle.tspdef.specs.Trees.{first, second};
ghost use Rattle.treebook.specs.Tables as defs;
ghost use Rattle.treebook.specs.Tree.{branch_of, state_of, shown};
ghost use Rattle.pricer.specs.Trails.{condition_of};

use branchx::Branch;
use pricer::{Closing, Step};

/// What a node is.
#[derive(Clone, Copy)]
pub enum State<'a> {
    Open,
    Closed(&'a Closing),
    /// By what it is split, and the number of its first child. The second child's number is one more.
    Split(&'a Branch, u32),
}

/// A node: the number of the one above it, which for the root is its own, and its state.
#[derive(Drop)]
pub(crate) struct Node {
    pub parent: u32,
    pub state: NodeState,
}

#[derive(Drop)]
pub(crate) enum NodeState {
    Open,
    Closed(Closing),
    Split(Branch, u32),
}

impl NodeState {
    pub fn is_open(&self) -> bool
        ensures { IsTrue result ↔ (state_of self.now ≡ defs.open_node) }
    {
        matches!(self, NodeState::Open)
    }

    /// The state, lent.
    pub fn show(&self) -> State<'_>
        ensures { shown result ≡ state_of self.now }
    {
        match self {
            NodeState::Open => State::Open,
            NodeState::Closed(closing) => State::Closed(closing),
            NodeState::Split(branch, child) => State::Split(branch, *child),
        }
    }

    /// The condition on a child, by its number. Only a split node has children.
    pub fn condition_under(&self, k: u32) -> Option<Step<'_>>
        requires { defs.is_child (state_of self.now) k ≡ true }
        ensures { option_map condition_of result ≡ Some (defs.condition_under (state_of self.now) k) }
    {
        match self {
            NodeState::Split(branch, child) => Some(step_of(branch, k == *child)),
            _ => None,
        }
    }
}

/// The condition that a branch puts on its first child, or on its second.
fn step_of(branch: &Branch, is_first: bool) -> Step<'_>
    ensures { condition_of result ≡ defs.condition_on (branch_of branch.now) (if is_first then first else second) }
{
    match (branch, is_first) {
        (Branch::Edge(u, v), true) => Step::Absent(*u, *v),
        (Branch::Edge(u, v), false) => Step::Present(*u, *v),
        (Branch::Clique(set), true) => Step::Two(set),
        (Branch::Clique(set), false) => Step::Four(set),
    }
}
