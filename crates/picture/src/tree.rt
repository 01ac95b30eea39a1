//! The nodes of a tree, and how deep they lie.
ghost use Rattle.std.specs.Prelude.{◌≡◌, ◌≢◌, ◌+◌, ◌<◌, ◌^◌, ◌∷◌, length, IfOk, OnOk};
ghost use Rattle.std.specs.List.{count_by};
ghost use Rattle.picture.specs.Trees.{Shape, preorder, depths_from, is_open, is_closed, is_split};

use std::alloc::{AllocError, Global};
use std::collections::VecDeque;

/// A node of a tree: an open leaf, a closed one, or a split, whose two trees follow it.
#[derive(Clone, Copy, Debug, PartialEq, Eq, Drop)]
pub enum Node {
    Open,
    Closed,
    Split,
}

/// Puts the depths of the trees below a node before those of the trees that are still to come.
fn put_trees(waiting: &mut VecDeque<u32>, node: Node, depth: u32) -> Result<(), AllocError>
    requires { depth + 1 < 2 ^ 32 }
    ensures leaf { OnOk result (node ≢ Node.Split → waiting.new.items ≡ waiting.old.items) }
    ensures split { OnOk result (node ≡ Node.Split → waiting.new.items ≡ (depth + 1) ∷ (depth + 1) ∷ waiting.old.items) }
{
    match node {
        Node::Open | Node::Closed => {}
        Node::Split => {
            waiting.push_front(depth + 1)?;
            waiting.push_front(depth + 1)?;
        }
    }
    Ok(())
}

/// How deep each node of a tree lies, whose nodes come in preorder. The root lies at depth 0.
pub fn depths(alloc: Global, nodes: &[Node]) -> Result<Vec<u32>, AllocError>
    requires { length nodes.now < 2 ^ 32 }
    ensures { IfOk result (λ depths. (tree : Shape) → preorder tree ≡ nodes.now → depths.items ≡ depths_from 0 tree) }
{
    let mut depths = Vec::new(alloc);
    let mut waiting = VecDeque::new(alloc);
    waiting.push_front(0u32)?;
    for place in 0..nodes.len() {
        let Some(depth) = waiting.pop_front() else {
            return Ok(depths);
        };
        depths.push(depth)?;
        put_trees(&mut waiting, nodes[place], depth)?;
    }
    Ok(depths)
}

/// How many nodes there are of each kind.
#[derive(Clone, Copy, Debug, PartialEq, Eq, Drop)]
pub struct Census {
    pub open: u64,
    pub closed: u64,
    pub split: u64,
}

/// Counts the nodes of each kind.
pub fn take_census(nodes: &[Node]) -> Census
    ensures open { result.open ≡ count_by is_open nodes.now }
    ensures closed { result.closed ≡ count_by is_closed nodes.now }
    ensures split { result.split ≡ count_by is_split nodes.now }
{
    let mut census = Census {
        open: 0,
        closed: 0,
        split: 0,
    };
    for place in 0..nodes.len() {
        match nodes[place] {
            Node::Open => census.open += 1,
            Node::Closed => census.closed += 1,
            Node::Split => census.split += 1,
        }
    }
    census
}
