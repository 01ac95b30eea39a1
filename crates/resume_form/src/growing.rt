//! A tree that grows out of its nodes in preorder.
ghost use Rattle.std.specs.Prelude.{◌≡◌, ℕ, ◌+◌, ◌-◌, ◌<◌, ◌≤◌, ◌<ℤ◌, List, ◌∷◌, length, IfOk, OnOk, if◌then◌else◌};
ghost use Rattle.std.specs.Int.Signed.{lt_z};
ghost use Rattle.tspdef.specs.Bounds as bounds;
ghost use Rattle.tspdef.specs.Closings.{Fits, IsClosing};
ghost use Rattle.tspdef.specs.Fixed.{AreFixable};
ghost use Rattle.tspdef.specs.Trees as trees;
ghost use Rattle.treebook.specs.Tables.{fresh, path_at, IsOpen, MaySplit, closed_at, split_at};
ghost use Rattle.treebook.specs.Tree.{branch_of};
ghost use Rattle.verdict.specs.Bodies.{reopened_for};
ghost use Rattle.verdict.specs.Parts as parts;
ghost use Rattle.certcheck.specs.Parts.{part_of, parts_of};
ghost use Rattle.resume_form.specs.Growing.{IsGrowing, Grows, IsSaid, IsGrown};

use branchx::Branch;
use certcheck::Part;
use pricer::{Closing, needed};
use std::alloc::{AllocError, Global};
use std::collections::VecDeque;
use treebook::Tree;
use tspinst::Instance;

/// Splits a node. Its children wait before all others, the first one first.
fn split(
    tree: &mut Tree,
    waiting: &mut VecDeque<u32>,
    node: u32,
    branch: Branch,
) -> Result<(), AllocError>
    requires is_open { IsOpen tree.old.nodes node }
    requires fits { MaySplit tree.old.n (path_at tree.old.fixed tree.old.nodes node) (branch_of branch) }
    requires room { 2 ≤ tree.old.room }
    ensures table { tree.new ≡ record tree.old { nodes = split_at tree.old.nodes node (branch_of branch); room = tree.old.room - 2 } }
    ensures waiting { OnOk result (waiting.new.items ≡ length tree.old.nodes ∷ (length tree.old.nodes + 1) ∷ waiting.old.items) }
{
    let child = tree.nodes();
    tree.split(node, branch);
    waiting.push_front(child + 1)?;
    waiting.push_front(child)?;
    Ok(())
}

/// Whether the closing of a node suffices for a level. It suffices for the bound that is told, so it is priced only where the level is
/// above that.
fn suffices(
    tree: &Tree,
    instance: &Instance,
    told: u64,
    level: u64,
    node: u32,
    closing: &Closing,
) -> bool
    requires node { node < length tree.now.nodes }
    requires cities { tree.now.n ≡ instance.now.n }
    requires fixed { tree.now.fixed ≡ instance.now.fixed }
    requires is_closing { IsClosing instance.now.n (path_at instance.now.fixed tree.now.nodes node) closing.now }
    requires exceeds { bounds.needed told <ℤ (bounds.bound instance.now (path_at instance.now.fixed tree.now.nodes node) closing.now) }
    ensures { result ≡ lt_z (bounds.needed level) (bounds.bound instance.now (path_at instance.now.fixed tree.now.nodes node) closing.now) }
{
    if level <= told {
        return true;
    }
    tree.bound_at(instance, node, closing) > needed(level)
}

/// Closes a node, unless its closing is too weak for a level. It suffices for the bound that is told.
fn close(tree: &mut Tree, instance: &Instance, told: u64, level: u64, node: u32, closing: Closing)
    requires cities { tree.old.n ≡ instance.now.n }
    requires fixed { tree.old.fixed ≡ instance.now.fixed }
    requires is_open { IsOpen tree.old.nodes node }
    requires fits { Fits instance.now.n (path_at instance.now.fixed tree.old.nodes node) closing }
    requires is_closing { IsClosing instance.now.n (path_at instance.now.fixed tree.old.nodes node) closing }
    requires exceeds { bounds.needed told <ℤ (bounds.bound instance.now (path_at instance.now.fixed tree.old.nodes node) closing) }
    ensures { tree.new ≡ (if lt_z (bounds.needed level) (bounds.bound instance.now (path_at instance.now.fixed tree.old.nodes node) closing)
        then record tree.old { nodes = closed_at tree.old.nodes node closing } else tree.old) }
{
    if suffices(tree, instance, told, level, node, &closing) {
        tree.close(node, closing);
    }
}

/// Takes the next part of a tree, at the node that waits first.
fn take(
    tree: &mut Tree,
    waiting: &mut VecDeque<u32>,
    instance: &Instance,
    told: u64,
    level: u64,
    part: Part,
) -> Result<(), AllocError>
    requires { (rest : List parts.Part) × Grows instance.now (bounds.needed told) (bounds.needed level) tree.old waiting.old.items (part_of part ∷ rest) }
    ensures { OnOk result ((goal : trees.Tree) (total : ℕ) (rest : List parts.Part)
        → IsGrowing instance.now (bounds.needed told) (bounds.needed level) goal total tree.old waiting.old.items (part_of part ∷ rest)
        → IsGrowing instance.now (bounds.needed told) (bounds.needed level) goal total tree.new waiting.new.items rest) }
{
    let Some(node) = waiting.pop_front() else {
        return Ok(());
    };
    match part {
        Part::Edge(u, v) => split(tree, waiting, node, Branch::Edge(u, v)),
        Part::Clique(set) => split(tree, waiting, node, Branch::Clique(set)),
        Part::Closed(closing) => {
            close(tree, instance, told, level, node, closing);
            Ok(())
        }
        Part::Open => Ok(()),
        Part::Tour(_) => Ok(()),
    }
}

/// The tree of one open node, with room for so many more.
fn seedling(alloc: Global, instance: &Instance, room: u32) -> Result<Tree, AllocError>
    requires { room ≤ 1048576 }
    ensures table { IfOk result (λ r. r ≡ record { n = instance.now.n; fixed = instance.now.fixed; nodes = fresh; room = room }) }
    ensures pairs { AreFixable instance.now.n instance.now.fixed }
{
    let mut tree = Tree::with_fixed(alloc, instance.n(), instance.fixed())?;
    tree.reserve(alloc, room)?;
    Ok(tree)
}

/// The tree whose nodes in preorder the parts are, with leaves open whose closings are too weak for the level.
///
/// The nodes that are still to come wait in a list, and no depth of the tree uses up the stack of the program. O(nodes) in time and
/// memory; and where the level is above the bound that is told, one pass over all pairs a leaf.
pub(crate) fn grow(
    alloc: Global,
    instance: &Instance,
    mut parts: VecDeque<Part>,
    told: u64,
    level: u64,
) -> Result<Tree, AllocError>
    requires said { (said : trees.Tree) × IsSaid instance.now told (parts_of parts.items) said }
    requires few { length parts.items ≤ 1048576 }
    ensures { IfOk result (λ r. (said : trees.Tree) → IsSaid instance.now told (parts_of parts.items) said
        → IsGrown instance.now (reopened_for instance.now level said) (length parts.items) r) }
{
    let mut tree = seedling(alloc, instance, parts.len() as u32)?;
    let mut waiting = VecDeque::new(alloc);
    waiting.push_front(0u32)?;
    while let Some(part) = parts.pop_front() {
        take(&mut tree, &mut waiting, instance, told, level, part)?;
    }
    Ok(tree)
}
