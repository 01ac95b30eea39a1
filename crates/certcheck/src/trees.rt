//! The lines of the tree.
ghost use Rattle.std.specs.Prelude.{◌≡◌, IfOk, ◌<◌, ◌≤◌, suc, true, length, if◌then◌else◌};
ghost use Rattle.certdef.specs.Items.{fits, item_of, is_set, edge_line, clique_line};
ghost use Rattle.certdef.specs.Tests.{verifier};
ghost use Rattle.certdef.specs.Verdicts as spec;
ghost use Rattle.tspdef.specs.Paths.{MayFollow};
ghost use Rattle.branchx.specs.Cond.{condition_of};
ghost use Rattle.certline.specs.Said.{said};
ghost use Rattle.certtests.specs.Duals.{AreDuals};
ghost use Rattle.certcheck.specs.Paths.{later};
ghost use Rattle.verdict.specs.Parts as parts;
ghost use Rattle.certcheck.specs.Purposes.{tests_by, parts_in};
ghost use Rattle.certcheck.specs.Stages.{head, duals, open_duals, stage_of, IsOf, Stands, Goes};

use crate::answer::Trouble;
use crate::following::{may_follow, may_follow_city};
use crate::part::Part;
use crate::path::next_child;
use crate::progress::{Progress, Stage};
use crate::purpose::Purpose;
use branchx::Cond;
use certline::{Item, read_line};
use certtests::{city_set, closes_in_place, is_proper, names_clique};
use std::alloc::Global;
use tspinst::Instance;

impl Progress {
    /// Takes a line where a tree is wanted.
    fn on_tree(
        &mut self,
        alloc: Global,
        instance: &Instance,
        at: u64,
        item: Item,
    ) -> Result<Option<Part>, Trouble>
        requires of { IsOf instance.now.n self.old }
        requires fits { fits instance.now.n (said item) ≡ true }
        ensures goes { Goes instance.now.n result self.new (spec.on_tree (tests_by self.old.purpose instance.now) (head self.old) self.old.path.conditions (later self.old.path.conditions) at (said item)) }
        ensures same { self.new.purpose ≡ self.old.purpose }
        ensures says { IfOk result (λ o. self.old.purpose ≡ Purpose.Resume → parts_in o ≡ parts.tree_says instance.now.n (head self.old) (said item)) }
    {
        match item {
            Item::Edge(u, v) => self.on_edge(alloc, instance, at, u, v),
            Item::Clique(set) => self.on_clique(alloc, instance, at, set),
            Item::Leaf(a, b, c) => {
                self.cities.clear();
                self.cut_duals.clear();
                self.condition_duals.clear();
                self.duals_on(alloc, instance, at, a, b, c)
            }
            Item::Open => self.open(alloc, instance, at),
            _ => Err(Trouble::Refused(1, at)),
        }
    }

    /// Splits the node by a pair of cities.
    fn on_edge(
        &mut self,
        alloc: Global,
        instance: &Instance,
        at: u64,
        u: u32,
        v: u32,
    ) -> Result<Option<Part>, Trouble>
        requires of { IsOf instance.now.n self.old }
        requires least { 1 ≤ u }
        requires rises { u < v }
        requires most { v ≤ instance.now.n }
        ensures goes { Goes instance.now.n result self.new (spec.on_tree (tests_by self.old.purpose instance.now) (head self.old) self.old.path.conditions (later self.old.path.conditions) at (edge_line u v)) }
        ensures same { self.new.purpose ≡ self.old.purpose }
        ensures says { IfOk result (λ o. parts_in o ≡ parts.tree_says instance.now.n (head self.old) (edge_line u v)) }
    {
        let (u, v) = (u - 1, v - 1);
        if self.path.decides(u, v) {
            return Err(Trouble::Refused(6, at));
        }
        self.path.push(alloc, Cond::Absent(u, v))?;
        self.stage = Stage::Tree;
        Ok(Some(Part::Edge(u, v)))
    }

    /// Splits the node by a set.
    fn on_clique(
        &mut self,
        alloc: Global,
        instance: &Instance,
        at: u64,
        set: Vec<u32>,
    ) -> Result<Option<Part>, Trouble>
        requires of { IsOf instance.now.n self.old }
        requires set { is_set instance.now.n set.items ≡ true }
        ensures goes { Goes instance.now.n result self.new (spec.on_tree (tests_by self.old.purpose instance.now) (head self.old) self.old.path.conditions (later self.old.path.conditions) at (clique_line set.items)) }
        ensures same { self.new.purpose ≡ self.old.purpose }
        ensures says { IfOk result (λ o. self.old.purpose ≡ Purpose.Resume → parts_in o ≡ parts.tree_says instance.now.n (head self.old) (clique_line set.items)) }
    {
        let set = city_set(alloc, instance.n(), set)?;
        if !is_proper(&set) {
            return Err(Trouble::Refused(5, at));
        }
        let part = self.clique_part(alloc, &set)?;
        self.path.push(alloc, Cond::Two(set))?;
        self.stage = Stage::Tree;
        Ok(part)
    }

    /// Goes on with the duals of a leaf that are left, or closes the leaf.
    fn duals_on(
        &mut self,
        alloc: Global,
        instance: &Instance,
        from: u64,
        a: u32,
        b: u32,
        c: u32,
    ) -> Result<Option<Part>, Trouble>
        requires of { IsOf instance.now.n self.old }
        requires duals { AreDuals (length self.old.cuts.items) self.old.path.conditions b c (duals self.old) }
        ensures goes { Goes instance.now.n result self.new (spec.duals_on (tests_by self.old.purpose instance.now) (head self.old) (later self.old.path.conditions) (open_duals self.old from) a b c) }
        ensures same { self.new.purpose ≡ self.old.purpose }
        ensures says { IfOk result (λ o. self.old.purpose ≡ Purpose.Resume → parts_in o ≡ parts.leaf_says instance.now.n (head self.old) (duals self.old) a b c) }
    {
        if a != 0 || b != 0 || c != 0 {
            self.stage = Stage::Duals(from, a, b, c);
            return Ok(None);
        }
        self.close(alloc, instance, from)
    }

    /// Closes a leaf whose lines are read.
    fn close(
        &mut self,
        alloc: Global,
        instance: &Instance,
        from: u64,
    ) -> Result<Option<Part>, Trouble>
        requires of { IsOf instance.now.n self.old }
        requires duals { AreDuals (length self.old.cuts.items) self.old.path.conditions 0 0 (duals self.old) }
        ensures goes { Goes instance.now.n result self.new (spec.duals_on (tests_by self.old.purpose instance.now) (head self.old) (later self.old.path.conditions) (open_duals self.old from) 0 0 0) }
        ensures same { self.new.purpose ≡ self.old.purpose }
        ensures says { IfOk result (λ o. self.old.purpose ≡ Purpose.Resume → parts_in o ≡ parts.leaf_says instance.now.n (head self.old) (duals self.old) 0 0 0) }
    {
        match self.purpose {
            Purpose::Verify => self.close_proof(alloc, instance, from),
            Purpose::Resume => self.close_body(alloc, instance, from),
        }
    }

    /// Closes a leaf of a proof.
    fn close_proof(
        &mut self,
        alloc: Global,
        instance: &Instance,
        from: u64,
    ) -> Result<Option<Part>, Trouble>
        requires of { IsOf instance.now.n self.old }
        requires duals { AreDuals (length self.old.cuts.items) self.old.path.conditions 0 0 (duals self.old) }
        ensures goes { Goes instance.now.n result self.new (spec.duals_on (verifier instance.now) (head self.old) (later self.old.path.conditions) (open_duals self.old from) 0 0 0) }
        ensures same { self.new.purpose ≡ self.old.purpose }
    {
        if !closes_in_place(
            alloc,
            instance,
            self.bound,
            &mut self.cuts,
            self.path.path(),
            &self.cities,
            &self.cut_duals,
            &self.condition_duals,
        )? {
            return Err(Trouble::Refused(7, from));
        }
        self.end_tree(alloc, instance)?;
        Ok(None)
    }

    /// Goes to the next tree, if there is one.
    pub(crate) fn end_tree(&mut self, alloc: Global, instance: &Instance) -> Result<(), Trouble>
        requires { IsOf instance.now.n self.old }
        ensures goes { Goes instance.now.n result self.new (spec.go (spec.wants_trees (head self.old) (later self.old.path.conditions))) }
        ensures same { self.new.purpose ≡ self.old.purpose }
    {
        if next_child(alloc, &mut self.path)? {
            self.stage = Stage::Tree;
        } else {
            self.stage = Stage::End;
        }
        Ok(())
    }

    /// Takes a line where the dual of a city is wanted, and after it as many lines as the numbers say.
    fn on_city(
        &mut self,
        alloc: Global,
        instance: &Instance,
        from: u64,
        a: u32,
        b: u32,
        c: u32,
        at: u64,
        item: Item,
    ) -> Result<Option<Part>, Trouble>
        requires of { IsOf instance.now.n self.old }
        requires duals { AreDuals (length self.old.cuts.items) self.old.path.conditions b c (duals self.old) }
        requires fits { fits instance.now.n (said item) ≡ true }
        ensures goes { Goes instance.now.n result self.new (spec.on_dual (tests_by self.old.purpose instance.now) (head self.old) (later self.old.path.conditions) (open_duals self.old from) (suc a) b c at (said item)) }
        ensures same { self.new.purpose ≡ self.old.purpose }
        ensures says { IfOk result (λ o. self.old.purpose ≡ Purpose.Resume → parts_in o ≡ parts.dual_says instance.now.n (head self.old) (duals self.old) (suc a) b c (said item)) }
    {
        let Item::City(city, dual) = item else {
            return Err(Trouble::Refused(1, at));
        };
        if !may_follow_city(&self.cities, city) {
            return Err(Trouble::Refused(1, at));
        }
        self.cities.push((city, dual))?;
        self.duals_on(alloc, instance, from, a, b, c)
    }

    /// The same of a cut.
    fn on_cut_dual(
        &mut self,
        alloc: Global,
        instance: &Instance,
        from: u64,
        b: u32,
        c: u32,
        at: u64,
        item: Item,
    ) -> Result<Option<Part>, Trouble>
        requires of { IsOf instance.now.n self.old }
        requires duals { AreDuals (length self.old.cuts.items) self.old.path.conditions (suc b) c (duals self.old) }
        requires fits { fits instance.now.n (said item) ≡ true }
        ensures goes { Goes instance.now.n result self.new (spec.on_dual (tests_by self.old.purpose instance.now) (head self.old) (later self.old.path.conditions) (open_duals self.old from) 0 (suc b) c at (said item)) }
        ensures same { self.new.purpose ≡ self.old.purpose }
        ensures says { IfOk result (λ o. self.old.purpose ≡ Purpose.Resume → parts_in o ≡ parts.dual_says instance.now.n (head self.old) (duals self.old) 0 (suc b) c (said item)) }
    {
        let Item::CutDual(cut, dual) = item else {
            return Err(Trouble::Refused(1, at));
        };
        if !may_follow(&self.cut_duals, cut) || cut as usize > self.cuts.len() {
            return Err(Trouble::Refused(1, at));
        }
        self.cut_duals.push((cut, dual))?;
        self.duals_on(alloc, instance, from, 0, b, c)
    }

    /// The same of a condition.
    fn on_condition_dual(
        &mut self,
        alloc: Global,
        instance: &Instance,
        from: u64,
        c: u32,
        at: u64,
        item: Item,
    ) -> Result<Option<Part>, Trouble>
        requires of { IsOf instance.now.n self.old }
        requires duals { AreDuals (length self.old.cuts.items) self.old.path.conditions 0 (suc c) (duals self.old) }
        requires fits { fits instance.now.n (said item) ≡ true }
        ensures goes { Goes instance.now.n result self.new (spec.on_dual (tests_by self.old.purpose instance.now) (head self.old) (later self.old.path.conditions) (open_duals self.old from) 0 0 (suc c) at (said item)) }
        ensures same { self.new.purpose ≡ self.old.purpose }
        ensures says { IfOk result (λ o. self.old.purpose ≡ Purpose.Resume → parts_in o ≡ parts.dual_says instance.now.n (head self.old) (duals self.old) 0 0 (suc c) (said item)) }
    {
        let Item::CondDual(depth, dual) = item else {
            return Err(Trouble::Refused(1, at));
        };
        if !may_follow(&self.condition_duals, depth) || !names_clique(self.path.path(), depth) {
            return Err(Trouble::Refused(1, at));
        }
        self.condition_duals.push((depth, dual))?;
        self.duals_on(alloc, instance, from, 0, 0, c)
    }

    /// Takes a line of a leaf, of which so many lines are to come.
    fn on_dual(
        &mut self,
        alloc: Global,
        instance: &Instance,
        from: u64,
        a: u32,
        b: u32,
        c: u32,
        at: u64,
        item: Item,
    ) -> Result<Option<Part>, Trouble>
        requires of { IsOf instance.now.n self.old }
        requires duals { AreDuals (length self.old.cuts.items) self.old.path.conditions b c (duals self.old) }
        requires fits { fits instance.now.n (said item) ≡ true }
        ensures goes { Goes instance.now.n result self.new (spec.on_dual (tests_by self.old.purpose instance.now) (head self.old) (later self.old.path.conditions) (open_duals self.old from) a b c at (said item)) }
        ensures same { self.new.purpose ≡ self.old.purpose }
        ensures says { IfOk result (λ o. self.old.purpose ≡ Purpose.Resume → parts_in o ≡ parts.dual_says instance.now.n (head self.old) (duals self.old) a b c (said item)) }
    {
        if a != 0 {
            self.on_city(alloc, instance, from, a - 1, b, c, at, item)
        } else if b != 0 {
            self.on_cut_dual(alloc, instance, from, b - 1, c, at, item)
        } else if c != 0 {
            self.on_condition_dual(alloc, instance, from, c - 1, at, item)
        } else {
            Err(Trouble::Refused(1, at))
        }
    }

    /// Takes the item of line `at`.
    fn step(
        &mut self,
        alloc: Global,
        instance: &Instance,
        at: u64,
        item: Item,
    ) -> Result<Option<Part>, Trouble>
        requires stands { Stands instance.now.n self.old }
        requires fits { fits instance.now.n (said item) ≡ true }
        ensures goes { Goes instance.now.n result self.new (spec.step (tests_by self.old.purpose instance.now) at (stage_of self.old) (said item)) }
        ensures same { self.new.purpose ≡ self.old.purpose }
        ensures says { IfOk result (λ o. self.old.purpose ≡ Purpose.Resume → parts_in o ≡ parts.says instance.now.n (stage_of self.old) (said item)) }
    {
        match self.stage {
            Stage::Title => self.on_title(instance, at, item),
            Stage::Size(version) => self.on_size(instance, version, at, item),
            Stage::Length(version) => self.on_length(instance, version, at, item),
            Stage::Bound => self.on_bound(instance, at, item),
            Stage::Tour => self.on_tour(alloc, instance, at, item),
            Stage::Count => self.on_count(alloc, instance, at, item),
            Stage::Cut(left) => self.on_cut(alloc, instance, left, at, item),
            Stage::Handle(left, from, teeth) => {
                self.on_handle(alloc, instance, left, from, teeth, at, item)
            }
            Stage::Tooth(left, from, more) => {
                self.on_tooth(alloc, instance, left, from, more, at, item)
            }
            Stage::OddHandle(left, from, pairs) => {
                self.on_odd_handle(alloc, instance, left, from, pairs, at, item)
            }
            Stage::Pair(left, from, more) => {
                self.on_pair(alloc, instance, left, from, more, at, item)
            }
            Stage::Tree => self.on_tree(alloc, instance, at, item),
            Stage::End => Err(Trouble::Refused(9, at)),
            Stage::Duals(from, a, b, c) => {
                self.on_dual(alloc, instance, from, a, b, c, at, item)
            }
        }
    }

    /// Takes the bytes of line `at`, without its line feed.
    pub(crate) fn line(
        &mut self,
        alloc: Global,
        instance: &Instance,
        at: u64,
        bytes: &[u8],
    ) -> Result<Option<Part>, Trouble>
        requires { Stands instance.now.n self.old }
        ensures goes { Goes instance.now.n result self.new (spec.line_step (tests_by self.old.purpose instance.now) at (stage_of self.old) (item_of instance.now.n bytes.now)) }
        ensures same { self.new.purpose ≡ self.old.purpose }
        ensures says { IfOk result (λ o. self.old.purpose ≡ Purpose.Resume → parts_in o ≡ parts.line_says instance.now.n (stage_of self.old) (item_of instance.now.n bytes.now)) }
    {
        match read_line(alloc, instance.n(), bytes)? {
            Some(item) => self.step(alloc, instance, at, item),
            None => Err(Trouble::Refused(self.not_a_line(), at)),
        }
    }

    /// The refusal of a line of bad form.
    fn not_a_line(&self) -> u32
        ensures { result ≡ (if spec.is_end (stage_of self.now) then 9 else 1) }
    {
        if let Stage::End = self.stage { 9 } else { 1 }
    }
}
