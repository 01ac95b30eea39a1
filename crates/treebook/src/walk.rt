//! What a node's path says, found by going up from the node to the root.
ghost use Rattle.std.specs.Prelude.{◌≡◌, ℕ, ◌+◌, ◌<◌, ◌≤ℤ◌, ◌*◌, ◌^◌, ◌↔◌, pos, List, [], ◌∷◌, ◌++◌, length, take, IsTrue, IfOk, IfSome, MatchOption, OnOk, ◌≤◌};
ghost use Rattle.tspdef.specs.Sets.{IsComplement};
ghost use Rattle.tspdef.specs.Tours.{has_step, steps};
ghost use Rattle.tspdef.specs.Instances.{IsTourOf, length_in};
ghost use Rattle.tspdef.specs.Paths.{IsApartFrom, MayFollow, IsNew, Obeys, is_decided};
ghost use Rattle.tspdef.specs.Closings.{Fits, IsClosing, IsMisfit};
ghost use Rattle.tspdef.specs.Bounds as defs;
ghost use Rattle.branchx.specs.Cond as cond;
ghost use Rattle.pricer.specs.Trails.{condition_of};
ghost use Rattle.pricer.specs.Sizes.{IsWithin};
ghost use Rattle.treebook.specs.Tables.{own_condition, path_at, way};

use crate::tree::Tree;
use branchx::{Cond, Path};
use cyc::CitySet;
use pricer::{Closing, Fit, Step, Trail, bound_on, fits_on};
use std::alloc::{AllocError, Global};
use tspinst::Instance;

/// The way from a node up to the root, and from there through the fixed pairs, of which so many are left.
#[derive(Clone, Copy)]
struct NodeTrail<'a> {
    tree: &'a Tree,
    node: u32,
    depth: usize,
    left: usize,
    ghost within: { node < length tree.now.nodes },
    ghost deep: { depth ≡ length (way tree.now.nodes node) },
    ghost some: { left ≤ length tree.now.fixed },
    ghost all: { 0 < node → left ≡ length tree.now.fixed },
}

impl<'a> Trail<'a> for NodeTrail<'a> {
    ghost cities = { λ t. t.tree.now.n };

    ghost conditions = { λ t. path_at (take t.left t.tree.now.fixed) t.tree.now.nodes t.node };

    fn n(self) -> u32 {
        self.tree.n()
    }

    fn depth(self) -> usize {
        self.depth
    }

    fn up(self) -> Option<(Step<'a>, NodeTrail<'a>)> {
        match self.tree.above(self.node) {
            None => self.before_fixed(),
            Some((node, step)) => Some((
                step,
                NodeTrail {
                    tree: self.tree,
                    node,
                    depth: self.depth - 1,
                    left: self.left,
                },
            )),
        }
    }
}

impl<'a> NodeTrail<'a> {
    /// At the root, the last fixed pair that is left, and the trail before it.
    fn before_fixed(self) -> Option<(Step<'a>, NodeTrail<'a>)>
        requires { self.node ≡ 0 }
        ensures conditions { MatchOption result (path_at (take self.entry.left self.entry.tree.now.fixed) self.entry.tree.now.nodes self.entry.node ≡ [])
            (λ s. path_at (take self.entry.left self.entry.tree.now.fixed) self.entry.tree.now.nodes self.entry.node
            ≡ path_at (take s.1.left s.1.tree.now.fixed) s.1.tree.now.nodes s.1.node ++ condition_of s.0 ∷ []) }
        ensures cities { IfSome result (λ s. s.1.tree.now.n ≡ self.entry.tree.now.n) }
    {
        if self.left == 0 {
            return None;
        }
        let left = self.left - 1;
        let pair = self.tree.fixed()[left];
        Some((
            Step::Fixed(pair.0, pair.1),
            NodeTrail {
                tree: self.tree,
                node: self.node,
                depth: self.depth,
                left,
            },
        ))
    }
}

impl Tree {
    /// The path of a node: the conditions from the root to it.
    pub fn path_of(&self, alloc: Global, node: u32) -> Result<Path, AllocError>
        requires { node < length self.now.nodes }
        ensures { IfOk result (λ path. path ≡ record { n = self.now.n; conditions = path_at self.now.fixed self.now.nodes node }) }
    {
        let way = self.way_to(alloc, node)?;
        let mut path = Path::root(alloc, self.n(), self.fixed())?;
        for k in &way {
            self.grow(alloc, &mut path, *k)?;
        }
        Ok(path)
    }

    /// Whether a closing fits at a node, or the least that is wrong with it.
    pub fn fits_at(&self, instance: &Instance, node: u32, closing: &Closing) -> Fit
        requires { node < length self.now.nodes }
        ensures fits { (result ≡ Fit.Fits) ↔ Fits instance.now.n (path_at self.now.fixed self.now.nodes node) closing.now }
        ensures misfit { (k : ℕ) → (result ≡ Fit.Misfit k)
            ↔ IsMisfit instance.now.n (path_at self.now.fixed self.now.nodes node) closing.now k }
    {
        fits_on(instance, self.trail(node), closing)
    }

    /// The bound of a closing at a node, in units: no tour that obeys the node's path is shorter.
    pub fn bound_at(&self, instance: &Instance, node: u32, closing: &Closing) -> i128
        requires node { node < length self.now.nodes }
        requires cities { self.now.n ≡ instance.now.n }
        requires closing { IsClosing instance.now.n (path_at self.now.fixed self.now.nodes node) closing.now }
        ensures value { result ≡ defs.bound instance.now (path_at self.now.fixed self.now.nodes node) closing.now }
        ensures size { IsWithin (2 ^ 110) result }
        ensures below { (tour : List ℕ) → IsTourOf instance.now tour → Obeys (steps tour) (path_at self.now.fixed self.now.nodes node)
            → result ≤ℤ pos (defs.scale * length_in instance.now tour) }
    {
        bound_on(instance, self.trail(node), closing)
    }

    /// Whether a node's path says of two cities, in either order, if they are joined.
    pub fn decided_at(&self, node: u32, u: u32, v: u32) -> bool
        requires { node < length self.now.nodes }
        ensures { result ≡ is_decided (path_at self.now.fixed self.now.nodes node) u v }
    {
        let mut here = node;
        while let Some((parent, step)) = self.above(here) {
            if decides(step, u, v) {
                return true;
            }
            here = parent;
        }
        join(self.fixed(), u, v)
    }

    /// Whether a node's path has no condition on a set or its complement.
    pub fn new_at(&self, node: u32, set: &CitySet) -> bool
        requires { node < length self.now.nodes }
        ensures { IsTrue result ↔ IsNew self.now.n (path_at self.now.fixed self.now.nodes node) set.now.cities }
    {
        let mut here = node;
        while let Some((parent, step)) = self.above(here) {
            if !is_apart_from(step, self.n(), set) {
                return false;
            }
            here = parent;
        }
        true
    }

    fn trail(&self, node: u32) -> NodeTrail<'_>
        requires { node < length self.now.nodes }
        ensures cities { result.tree.now.n ≡ self.now.n }
        ensures conditions { path_at (take result.left result.tree.now.fixed) result.tree.now.nodes result.node ≡ path_at self.now.fixed self.now.nodes node }
    {
        NodeTrail {
            tree: self,
            node,
            depth: self.depth_of(node),
            left: self.fixed().len(),
        }
    }

    /// How many conditions are on a node's path behind the fixed pairs.
    fn depth_of(&self, node: u32) -> usize
        requires { node < length self.now.nodes }
        ensures { result ≡ length (way self.now.nodes node) }
    {
        let mut depth = 0;
        let mut here = node;
        while let Some((parent, _)) = self.above(here) {
            depth += 1;
            here = parent;
        }
        depth
    }

    /// Adds to a path the condition by which a node differs from its parent.
    fn grow(&self, alloc: Global, path: &mut Path, node: u32) -> Result<(), AllocError>
        requires within { node < length self.now.nodes }
        requires below { 0 < node }
        requires follows { MayFollow path.old.n path.old.conditions (own_condition self.now.nodes node) }
        ensures { OnOk result (path.new ≡ record path.old {
          conditions = path.old.conditions ++ own_condition self.now.nodes node ∷ [];
        }) }
    {
        match self.above(node) {
            None => Ok(()),
            Some((_, step)) => path.push(cond_of(alloc, step)?),
        }
    }

    /// The nodes from the root, which is left out, to a node.
    fn way_to(&self, alloc: Global, node: u32) -> Result<Vec<u32>, AllocError>
        requires { node < length self.now.nodes }
        ensures { IfOk result (λ w. w.items ≡ way self.now.nodes node) }
    {
        let mut nodes = Vec::new(alloc);
        let mut here = node;
        while let Some((parent, _)) = self.above(here) {
            nodes.push(here)?;
            here = parent;
        }
        nodes.reverse();
        Ok(nodes)
    }
}

/// Whether one of the pairs joins two cities.
fn join(pairs: &[(u32, u32)], u: u32, v: u32) -> bool
    ensures { result ≡ has_step pairs.now u v }
{
    for pair in pairs {
        if (pair.0 == u && pair.1 == v) || (pair.0 == v && pair.1 == u) {
            return true;
        }
    }
    false
}

/// The condition, its set copied.
fn cond_of(alloc: Global, step: Step<'_>) -> Result<Cond, AllocError>
    ensures { IfOk result (λ c. cond.condition_of c ≡ condition_of step.entry) }
{
    Ok(match step {
        Step::Fixed(u, v) => Cond::Fixed(u, v),
        Step::Absent(u, v) => Cond::Absent(u, v),
        Step::Present(u, v) => Cond::Present(u, v),
        Step::Two(set) => Cond::Two(set.copy(alloc)?),
        Step::Four(set) => Cond::Four(set.copy(alloc)?),
    })
}

/// Whether the condition says of two cities, in either order, if they are joined.
fn decides(step: Step<'_>, u: u32, v: u32) -> bool
    ensures { result ≡ cond.decides (condition_of step.entry) u v }
{
    match step {
        Step::Fixed(a, b) | Step::Absent(a, b) | Step::Present(a, b) => (a == u && b == v)
            || (a == v && b == u),
        Step::Two(_) | Step::Four(_) => false,
    }
}

/// Whether the condition is on neither a set of n cities nor its complement.
fn is_apart_from(step: Step<'_>, n: u32, set: &CitySet) -> bool
    ensures { IsTrue result ↔ IsApartFrom n set.now.cities (condition_of step.entry) }
{
    match step {
        Step::Fixed(_, _) | Step::Absent(_, _) | Step::Present(_, _) => true,
        Step::Two(other) | Step::Four(other) => are_apart(n, set, other),
    }
}

// Whether the sets are neither equal nor complements in n cities.
fn are_apart(n: u32, set: &CitySet, other: &CitySet) -> bool
    ensures { IsTrue result ↔ ((¬ (other.now.cities ≡ set.now.cities)) × (¬ IsComplement n set.now.cities other.now.cities)) }
{
    other.cities() != set.cities() && !are_complements(n, set, other)
}

fn are_complements(n: u32, set: &CitySet, other: &CitySet) -> bool
    ensures { IsTrue result ↔ IsComplement n set.now.cities other.now.cities }
{
    for city in 0..n {
        if set.contains(city) == other.contains(city) {
            return false;
        }
    }
    true
}
