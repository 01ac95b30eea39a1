//! The relaxation of a node.
ghost use Rattle.std.specs.Prelude.{◌≡◌, ℕ, ◌+◌, ◌^◌, ◌<◌, ◌≤◌, true, false, [], List, length, Some, None, All, IfOk, OnOk, OnErr, IsSome};
ghost use Rattle.tspdef.specs.Paths.{Condition};
ghost use Rattle.tspdef.specs.Instances.{Instance as TheInstance};
ghost use Rattle.tspdef.specs.Cuts.{IsCut};
ghost use Rattle.tspdef.specs.Closings as closings;
ghost use Rattle.simplex.specs.Lp.{IsSolve, is_counted};
ghost use Rattle.nodelp.specs.Shapes.{cliques};
ghost use Rattle.nodelp.specs.Cuts.{AreCutRows};
ghost use Rattle.nodelp.specs.Node.{IsNodeLp, IsClean, HasSolved, IsMissed, IsPriced};
ghost use Rattle.nodelp.specs.Adding.{IsAdded, AreFurther};
ghost use Rattle.nodelp.specs.Duals.{closing_of, newest_duals};

use crate::basis::{basis_without, cuts_kept, pairs_of};
use crate::closing;
use crate::columns::{add_core, add_core_of, add_pairs};
use crate::cuts::{has_cut, place_of};
use crate::pricing::negative_pairs;
use crate::rows::{cut_row, first_rows};
use branchx::Path;
use cutform::Cut;
use neigh::Neigh;
use pricer::Closing;
use simplex::{Basis, Lp};
use std::alloc::{AllocError, Global};
use std::marker::Model;
use tspinst::Instance;

/// How many pivots a solve may take.
const PIVOTS: u32 = 100_000;

/// The linear relaxation of a node. Contracts see its linear program, and its cuts in their rising order, each with the
/// place of its row.
#[derive(Drop)]
pub struct NodeLp {
    lp: Lp,
    cuts: Vec<(Cut, u32)>,
}

impl Model for NodeLp {
    ghost use Rattle.nodelp.specs.Node.{Node};

    ghost Value = { Node };

    ghost use Rattle.nodelp.specs.NodeInside.{node_of, IsKept};

    ghost view = { node_of };

    ghost invariant = { IsKept };
}

impl NodeLp {
    /// The relaxation of a path's node, before any solve: the rows of its cities and of its path, no cut, and as its core
    /// the pairs of the near lists that the path does not forbid, and those that it wants. O(n k d) for lists of k near
    /// cities and a path of d conditions.
    pub fn new(
        alloc: Global,
        instance: &Instance,
        near: &Neigh,
        path: &Path,
    ) -> Result<NodeLp, AllocError>
        requires path_cities { path.now.n ≡ instance.now.n }
        requires near_cities { near.now.n ≡ instance.now.n }
        requires few_cliques { cliques path.now.conditions ≤ 2097152 }
        ensures node { IfOk result (IsNodeLp instance.now path.now.conditions) }
        ensures no_cuts { IfOk result (λ node. node.cuts ≡ []) }
        ensures unsolved { IfOk result (λ node. node.program.last ≡ None) }
        ensures no_rounds { IfOk result (λ node. node.program.rounds ≡ 0) }
    {
        let rows = first_rows(alloc, instance.n(), path)?;
        let mut lp = Lp::new(alloc, instance.n(), rows)?;
        add_core(instance, near, path, &mut lp)?;
        Ok(NodeLp {
            lp,
            cuts: Vec::new(alloc),
        })
    }

    /// The relaxation of a path's node over a core that is named, before any solve: the rows of its cities and of its path, no cut, and
    /// the pairs that the path wants and those of `pairs`, in either order, that it leaves undecided. What is no pair of cities is passed
    /// over. O(k d) for k pairs and a path of d conditions.
    pub fn over(
        alloc: Global,
        instance: &Instance,
        path: &Path,
        pairs: &[(u32, u32)],
    ) -> Result<NodeLp, AllocError>
        requires path_cities { path.now.n ≡ instance.now.n }
        requires few_cliques { cliques path.now.conditions ≤ 2097152 }
        ensures node { IfOk result (IsNodeLp instance.now path.now.conditions) }
        ensures no_cuts { IfOk result (λ node. node.cuts ≡ []) }
        ensures unsolved { IfOk result (λ node. node.program.last ≡ None) }
        ensures no_rounds { IfOk result (λ node. node.program.rounds ≡ 0) }
        ensures few { IfOk result (λ node. length node.program.rows ≤ 2099152) }
    {
        let rows = first_rows(alloc, instance.n(), path)?;
        let mut lp = Lp::new(alloc, instance.n(), rows)?;
        add_core_of(instance, path, pairs, &mut lp)?;
        Ok(NodeLp {
            lp,
            cuts: Vec::new(alloc),
        })
    }

    /// A relaxation of the same node, before any solve, over the same core with some of its cuts: of those in their order the ones
    /// that `kept` says, 65,536 at most. Its first solve begins at the basis at which this one stands.
    pub fn without(
        &self,
        alloc: Global,
        instance: &Instance,
        path: &Path,
        kept: &[bool],
    ) -> Result<NodeLp, AllocError>
        requires path_cities { path.now.n ≡ instance.now.n }
        requires few_cliques { cliques path.now.conditions ≤ 2097152 }
        ensures node { IfOk result (IsNodeLp instance.now path.now.conditions) }
        ensures unsolved { IfOk result (λ node. node.program.last ≡ None) }
        ensures no_rounds { IfOk result (λ node. node.program.rounds ≡ 0) }
        ensures few { IfOk result (λ node. length node.program.rows ≤ 2164688) }
    {
        let pairs = pairs_of(alloc, self.lp.cols())?;
        let mut node = NodeLp::over(alloc, instance, path, &pairs)?;
        let cuts = cuts_kept(alloc, &self.cuts, kept)?;
        node.begin_with(alloc, &cuts)?;
        node.want(basis_without(alloc, &self.lp, &self.cuts, kept)?);
        Ok(node)
    }

    /// How many cities there are.
    pub fn n(&self) -> u32
        ensures value { result ≡ self.now.program.n }
        ensures many { 3 ≤ result }
        ensures few { result ≤ 2000 }
    {
        self.lp.n()
    }

    /// The linear program: its rows, its core, its rounds and its newest answer.
    pub fn lp(&self) -> &Lp
        ensures { result.now ≡ self.now.program }
    {
        &self.lp
    }

    /// The linear program, given back.
    pub fn into_lp(self) -> Lp
        ensures { result ≡ self.program }
    {
        self.lp
    }

    /// The cuts in their rising order, each with the place of its row.
    pub fn cuts(&self) -> &[(Cut, u32)]
        ensures value { result.now ≡ self.now.cuts }
        ensures rows { AreCutRows self.now.program.n self.now.program.rows self.now.cuts }
    {
        &self.cuts
    }

    /// Names the basis at which the first solve is to begin: a hint, as [`Lp::want`] takes it.
    pub fn want(&mut self, basis: Basis)
        ensures { self.new ≡ self.old }
    {
        self.lp.want(basis);
    }

    /// Adds a row for each of some cuts, whether or not the newest values violate it: so a program begins with the cuts of a like
    /// one. A cut of another number of cities is passed over, and so is one that is there. On an error some of them were added.
    pub fn begin_with(&mut self, alloc: Global, cuts: &[Cut]) -> Result<(), AllocError>
        requires few { length cuts.now ≤ 65536 }
        requires room { length self.old.program.rows + 65536 ≤ 4194304 }
        ensures { OnOk result (AreFurther (length cuts.now) self.old self.new) }
    {
        for cut in cuts {
            self.begin_with_one(alloc, cut)?;
        }
        Ok(())
    }

    /// Adds a row for a cut, unless it is of another number of cities or is there.
    fn begin_with_one(&mut self, alloc: Global, cut: &Cut) -> Result<(), AllocError>
        requires room { length self.old.program.rows < 4194304 }
        ensures { OnOk result (AreFurther 1 self.old self.new) }
    {
        if cut.n() == self.lp.n() {
            self.add_cut(alloc, cut.copy(alloc)?)?;
            return Ok(());
        }
        Ok(())
    }

    /// Solves the program, by at most 100,000 pivots.
    pub fn solve(&mut self, alloc: Global) -> Result<(), AllocError>
        ensures solved { OnOk result (IsSolve self.old.program self.new.program) }
        ensures clean { OnOk result (IsClean self.new.program) }
        ensures cuts { OnOk result (self.new.cuts ≡ self.old.cuts) }
        ensures kept { OnOk result ((i : TheInstance) (path : List Condition) → IsNodeLp i path self.old → IsNodeLp i path self.new) }
        ensures err { OnErr result (self.new ≡ self.old) }
    {
        self.lp.solve(alloc, PIVOTS)
    }

    /// Adds a row for each of some cuts that a Solved answer misses by 2^10 units or more, from the last one on. A cut
    /// that is there already, or comes again, is passed over; the last one never is. On an error some of the cuts were
    /// added.
    pub fn add_cuts(&mut self, alloc: Global, cuts: Vec<Cut>) -> Result<(), AllocError>
        requires clean { IsClean self.old.program }
        requires solved { HasSolved self.old.program.last }
        requires some { 1 ≤ length cuts.items }
        requires few { length cuts.items ≤ 4096 }
        requires cuts { All (IsCut self.old.program.n) cuts.items }
        requires missed { All (IsMissed self.old.program) cuts.items }
        requires room { length self.old.program.rows + 4096 ≤ 4194304 }
        ensures kept { OnOk result ((i : TheInstance) (path : List Condition) → IsNodeLp i path self.old → IsNodeLp i path self.new) }
        ensures counted { OnOk result (is_counted self.new.program ≡ true) }
        ensures others { OnOk result (self.new.program ≡ record self.old.program { rows = self.new.program.rows }) }
        ensures most { OnOk result (length self.new.program.rows ≤ length self.old.program.rows + length cuts.items) }
    {
        let _ = self.lp.cols();
        let mut rest = cuts;
        while let Some(cut) = rest.pop() {
            self.add_cut(alloc, cut)?;
        }
        Ok(())
    }

    /// Adds a row for a cut, unless the cut is there.
    fn add_cut(&mut self, alloc: Global, cut: Cut) -> Result<(), AllocError>
        requires cut { IsCut self.old.program.n cut }
        requires room { length self.old.program.rows < 4194304 }
        ensures { OnOk result (IsAdded cut self.old self.new) }
    {
        if has_cut(&self.cuts, &cut) {
            return Ok(());
        }
        let row = cut_row(alloc, &cut)?;
        let place = self.lp.rows().len() as u32;
        let at = place_of(&self.cuts, &cut);
        self.lp.add_row(row)?;
        self.cuts.insert(at, (cut, place))?;
        Ok(())
    }

    /// Adds columns for undecided pairs of negative reduced cost at the newest duals, and says whether there were any: all
    /// of them, or the first ones where they are many more than cities. The reduced costs of all n (n - 1) / 2 pairs are
    /// judged, most of them by their cities' potentials alone. On an error some columns were added.
    pub fn add_negative(
        &mut self,
        alloc: Global,
        instance: &Instance,
        path: &Path,
    ) -> Result<bool, AllocError>
        requires node { IsNodeLp instance.now path.now.conditions self.old }
        requires clean { IsClean self.old.program }
        ensures kept { IfOk result (λ more. more ≡ true → IsNodeLp instance.now path.now.conditions self.new) }
        ensures counted { IfOk result (λ more. more ≡ true → is_counted self.new.program ≡ true) }
        ensures others { IfOk result (λ more. more ≡ true → self.new ≡ record self.old { program = record self.old.program { cols = self.new.program.cols } }) }
        ensures same { IfOk result (λ more. more ≡ false → self.new ≡ self.old) }
        ensures priced { IfOk result (λ more. more ≡ false → IsPriced instance.now path.now.conditions self.old.program (newest_duals self.old.program.last)) }
    {
        let pairs = negative_pairs(alloc, instance, path, &self.lp)?;
        if pairs.is_empty() {
            return Ok(false);
        }
        add_pairs(instance, path, &pairs, &mut self.lp)?;
        Ok(true)
    }

    /// What the newest duals are worth to a proof: the closing that they make, which fits the node.
    pub fn closing(&self, alloc: Global, path: &Path) -> Result<Closing, AllocError>
        requires cities { path.now.n ≡ self.now.program.n }
        requires short { length path.now.conditions ≤ 4194304 }
        requires solved { IsSome self.now.program.last }
        ensures closing { IfOk result (λ c. c ≡ closing_of path.now.n path.now.conditions self.now (newest_duals self.now.program.last)) }
        ensures fits { IfOk result (closings.Fits path.now.n path.now.conditions) }
    {
        closing::of(alloc, path, &self.cuts, &self.lp)
    }
}
