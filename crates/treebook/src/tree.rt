//! The tree.
ghost use Rattle.std.specs.Prelude.{◌≡◌, ℕ, ◌+◌, ◌-◌, ◌^◌, ◌<◌, ◌≤◌, ◌<ℤ◌, List, [], ◌∷◌, ◌++◌, length, max, vec_len, vec_capacity, IfOk, IfSome, IfNone, MatchOption, OnOk, OnErr};
ghost use Rattle.tspdef.specs.Instances.{Instance};
ghost use Rattle.tspdef.specs.Paths.{IsPath};
ghost use Rattle.tspdef.specs.Closings as closings;
ghost use Rattle.tspdef.specs.Bounds.{bound, needed};
ghost use Rattle.tspdef.specs.Trees.{open_leaves, settled};
ghost use Rattle.treebook.specs.Tables as defs;
ghost use Rattle.treebook.specs.Tables.{IsAbove, ArePairs, IsTable, IsOpen, NoneOpen, IsLeastOpen, MaySplit, fresh, state_at, path_at, tree_of, with_state, closed_at, split_at};
ghost use Rattle.treebook.specs.Laws.{KeepsTree};
ghost use Rattle.pricer.specs.Trails.{condition_of};
ghost use Rattle.treebook.specs.Tree.{Table, branch_of, state_of, node_of, nodes_of, shown};

use crate::laws::{tables_are_sound, tables_cover};
use crate::node::{Node, NodeState, State};
use branchx::Branch;
use pricer::{Closing, Step};
use std::alloc::{AllocError, Global};
use std::marker::Model;

/// A search tree over n cities: nodes that are open, closed or split, numbered in the order in which they came, the root
/// 0. Each path begins with the fixed pairs. Contracts see n, these pairs, the nodes as a table, and the room: for how many
/// more nodes there is memory.
#[derive(Drop)]
pub struct Tree {
    n: u32,
    fixed: Vec<(u32, u32)>,
    nodes: Vec<Node>,
    room: u32,
    open_count: u32,
    settled_count: u32,
    // the first open node, or the number of nodes: nodes never open again, so it only rises
    front: u32,
}

impl Model for Tree {
    ghost use Rattle.treebook.specs.Tree.{Table};

    ghost Value = { Table };

    ghost use Rattle.treebook.specs.TreeInside.{table_of, IsWellKept};

    ghost view = { table_of };

    ghost invariant = { IsWellKept };
}

impl Tree {
    /// The tree of one open node, with no room, where no pair is fixed.
    pub fn new(alloc: Global, n: u32) -> Result<Tree, AllocError>
        ensures { IfOk result (λ tree. tree ≡ record { n = n; fixed = []; nodes = fresh; room = 0 }) }
    {
        Tree::with_fixed(alloc, n, &[])
    }

    /// The tree of one open node, with no room, where these pairs are fixed.
    pub fn with_fixed(alloc: Global, n: u32, fixed: &[(u32, u32)]) -> Result<Tree, AllocError>
        requires { ArePairs n fixed.now }
        ensures { IfOk result (λ tree. tree ≡ record { n = n; fixed = fixed.now; nodes = fresh; room = 0 }) }
    {
        let mut nodes = Vec::with_capacity(alloc, 1)?;
        put(&mut nodes, open_under(0));
        Ok(Tree {
            n,
            fixed: Vec::from_slice(alloc, fixed)?,
            nodes,
            room: 0,
            open_count: 1,
            settled_count: 0,
            front: 0,
        })
    }

    /// Makes room for k more nodes at least, by the allocator that the tree was made with.
    pub fn reserve(&mut self, _alloc: Global, k: u32) -> Result<(), AllocError>
        requires { length self.old.nodes + k < 2 ^ 32 }
        ensures ok { OnOk result (self.new ≡ record self.old { room = max self.old.room k }) }
        ensures err { OnErr result (self.new ≡ self.old) }
    {
        if self.room < k {
            self.nodes.reserve(k as usize)?;
            self.room = k;
        }
        Ok(())
    }

    /// Closes an open node by a closing that fits there.
    pub fn close(&mut self, node: u32, closing: Closing)
        requires is_open { IsOpen self.old.nodes node }
        requires fits { closings.Fits self.old.n (path_at self.old.fixed self.old.nodes node) closing }
        ensures table { self.new ≡ record self.old { nodes = closed_at self.old.nodes node closing } }
        ensures keeps { (i : Instance) (l : ℕ) → i.n ≡ self.old.n → i.fixed ≡ self.old.fixed → 3 ≤ i.n
            → needed l <ℤ (bound i (path_at self.old.fixed self.old.nodes node) closing)
            → KeepsTree i l self.old.nodes self.new.nodes }
    {
        tables_cover();
        tables_are_sound();
        settle(&mut self.nodes, node, NodeState::Closed(closing));
        self.open_count -= 1;
        self.settled_count += 1;
        self.front = next_open(&self.nodes, self.front);
    }

    /// Splits an open node by an undecided pair, the lower city first, or by a proper set. Its children are the next two
    /// numbers: the first has the pair absent, or the set crossed twice; the second has the pair present, or the set
    /// crossed four times or more.
    pub fn split(&mut self, node: u32, branch: Branch)
        requires is_open { IsOpen self.old.nodes node }
        requires fits { MaySplit self.old.n (path_at self.old.fixed self.old.nodes node) (branch_of branch) }
        requires room { 2 ≤ self.old.room }
        ensures table { self.new ≡ record self.old {
          nodes = split_at self.old.nodes node (branch_of branch);
          room = self.old.room - 2;
        } }
        ensures keeps { (i : Instance) (l : ℕ) → i.n ≡ self.old.n → i.fixed ≡ self.old.fixed
            → KeepsTree i l self.old.nodes self.new.nodes }
    {
        tables_cover();
        tables_are_sound();
        let child = self.nodes.len() as u32;
        settle(&mut self.nodes, node, NodeState::Split(branch, child));
        put(&mut self.nodes, open_under(node));
        put(&mut self.nodes, open_under(node));
        self.room -= 2;
        self.open_count += 1;
        self.settled_count += 1;
        self.front = next_open(&self.nodes, self.front);
    }

    /// What a node is.
    pub fn state(&self, node: u32) -> State<'_>
        requires { node < length self.now.nodes }
        ensures { shown result ≡ state_at self.now.nodes node }
    {
        self.nodes[node as usize].state.show()
    }

    /// The open node with the least number, if one is open.
    pub fn least_open(&self) -> Option<u32>
        ensures found { IfSome result (λ k. IsLeastOpen self.now.nodes k) }
        ensures none { IfNone result (open_leaves (tree_of self.now.nodes) ≡ 0) }
    {
        if (self.front as usize) < self.nodes.len() {
            Some(self.front)
        } else {
            None
        }
    }

    /// How many nodes are open.
    pub fn open_nodes(&self) -> u32
        ensures { result ≡ open_leaves (tree_of self.now.nodes) }
    {
        self.open_count
    }

    /// How many nodes are closed or split.
    pub fn settled(&self) -> u32
        ensures { result ≡ settled (tree_of self.now.nodes) }
    {
        self.settled_count
    }

    /// How many nodes there are.
    pub fn nodes(&self) -> u32
        ensures number { result ≡ length self.now.nodes }
        ensures counted { open_leaves (tree_of self.now.nodes) + settled (tree_of self.now.nodes) ≡ result }
        ensures few { result + self.now.room < 2 ^ 32 }
    {
        self.nodes.len() as u32
    }

    /// Of how many cities it is: the nodes are a table of a tree over so many, and each node has a path.
    pub fn n(&self) -> u32
        ensures value { result ≡ self.now.n }
        ensures is_table { IsTable result self.now.fixed self.now.nodes }
        ensures paths { (k : ℕ) → k < length self.now.nodes → IsPath result (path_at self.now.fixed self.now.nodes k) }
    {
        self.n
    }

    /// The fixed pairs, the lower city first, rising.
    pub fn fixed(&self) -> &[(u32, u32)]
        ensures { result.now ≡ self.now.fixed }
    {
        &self.fixed
    }

    /// The node above one, and the condition by which they differ. None is above the root.
    pub(crate) fn above(&self, node: u32) -> Option<(u32, Step<'_>)>
        requires { node < length self.now.nodes }
        ensures { MatchOption result (node ≡ 0) (λ a. IsAbove self.now.nodes node a.0 (condition_of a.1)) }
    {
        if node == 0 {
            return None;
        }
        let parent = self.nodes[node as usize].parent;
        match self.nodes[parent as usize].state.condition_under(node) {
            Some(step) => Some((parent, step)),
            None => None,
        }
    }
}

fn open_under(parent: u32) -> Node
    ensures { node_of result ≡ defs.open_under parent }
{
    Node {
        parent,
        state: NodeState::Open,
    }
}

/// The first open node from a number on, or the number of nodes.
fn next_open(nodes: &[Node], from: u32) -> u32
    requires within { from ≤ length nodes.now }
    requires few { length nodes.now < 2 ^ 32 }
    ensures within { result ≤ length nodes.now }
    ensures behind { from ≤ result }
    ensures none_before { NoneOpen (nodes_of nodes.now) from result }
    ensures is_open { result < length nodes.now → state_at (nodes_of nodes.now) result ≡ defs.open_node }
{
    let len = nodes.len() as u32;
    for k in from..len {
        if nodes[k as usize].state.is_open() {
            return k;
        }
    }
    len
}

/// Gives a node another state.
fn settle(nodes: &mut Vec<Node>, node: u32, state: NodeState)
    requires { node < vec_len nodes.old }
    ensures items { nodes_of nodes.new.items ≡ with_state (nodes_of nodes.old.items) node (state_of state) }
    ensures len { vec_len nodes.new ≡ vec_len nodes.old }
    ensures capacity { vec_capacity nodes.new ≡ vec_capacity nodes.old }
{
    nodes[node as usize].state = state;
}

/// Appends a node within the capacity, so without memory.
fn put(nodes: &mut Vec<Node>, node: Node)
    requires { vec_len nodes.old < vec_capacity nodes.old }
    ensures items { nodes_of nodes.new.items ≡ nodes_of nodes.old.items ++ node_of node ∷ [] }
    ensures len { vec_len nodes.new ≡ vec_len nodes.old + 1 }
    ensures capacity { vec_capacity nodes.old ≤ vec_capacity nodes.new }
{
    let _ = nodes.push(node);
}
