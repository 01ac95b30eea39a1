//! The nodes of a tree in preorder.
ghost use Rattle.std.specs.Prelude.{◌≡◌, ◌<◌, ◌++◌, [], ◌∷◌, length, IfOk, OnOk};
ghost use Rattle.treebook.specs.Tables.{state_at, tree_of};
ghost use Rattle.certform.specs.Walks.{IsPreorder, stacked};

use std::alloc::{AllocError, Global};
use treebook::{State, Tree};

/// The numbers of a tree's nodes, in preorder.
///
/// The nodes that are still to come wait on a stack, a split's first child above its second: no depth of the tree uses up
/// the stack of the program. O(nodes) in time and memory.
pub fn preorder(alloc: Global, tree: &Tree) -> Result<Vec<u32>, AllocError>
    ensures { IfOk result (λ order. IsPreorder tree.now.nodes order.items (tree_of tree.now.nodes ∷ [])) }
{
    let mut order = Vec::with_capacity(alloc, tree.nodes() as usize)?;
    let _n = tree.n();
    let mut waiting = Vec::new(alloc);
    waiting.push(0u32)?;
    while let Some(k) = waiting.pop() {
        order.push(k)?;
        stack_children(&mut waiting, tree, k)?;
    }
    Ok(order)
}

/// Puts the two nodes below a split node on a stack, the first child on top.
fn stack_children(waiting: &mut Vec<u32>, tree: &Tree, node: u32) -> Result<(), AllocError>
    requires { node < length tree.now.nodes }
    ensures { OnOk result (waiting.new.items ≡ waiting.old.items ++ stacked (state_at tree.now.nodes node)) }
{
    let _n = tree.n();
    let _nodes = tree.nodes();
    if let State::Split(_, child) = tree.state(node) {
        waiting.push(child + 1)?;
        waiting.push(child)?;
    }
    Ok(())
}
