//! The lines before the tree.
ghost use Rattle.std.specs.Prelude.{◌≡◌, IfOk, true};
ghost use Rattle.certdef.specs.Items.{fits};
ghost use Rattle.certdef.specs.Verdicts as spec;
ghost use Rattle.certdef.specs.Verdicts.{wants_title};
ghost use Rattle.certline.specs.Said.{said};
ghost use Rattle.tspdef.specs.Cuts.{IsCut};
ghost use Rattle.certtests.specs.Listed.{listed};
ghost use Rattle.verdict.specs.Parts as parts;
ghost use Rattle.certcheck.specs.Purposes.{tests_by, parts_in};
ghost use Rattle.certcheck.specs.Stages.{head, handle_of, teeth_of, stage_of, IsHandle, IsOf, Stands, Goes};

use crate::answer::Trouble;
use crate::marked::MarkedPath;
use crate::part::Part;
use crate::purpose::Purpose;
use certline::Item;
use certtests::{canonical_tour, city_set, comb, has_length, subtour};
use cutform::Cut;
use cyc::CitySet;
use std::alloc::Global;
use tspinst::Instance;

/// Which line must come.
#[derive(Clone, Copy, Debug)]
pub(crate) enum Stage {
    Title,
    /// The version of the text.
    Size(u32),
    Length(u32),
    /// The bound, in a text of the second version.
    Bound,
    Tour,
    Count,
    /// A cut, and how many after it.
    Cut(u32),
    /// A comb's handle: how many cuts after the comb, the number of its first line, and how many teeth.
    Handle(u32, u64, u32),
    /// A comb's tooth, in the same way, and how many teeth after it.
    Tooth(u32, u64, u32),
    /// An odd cut's handle: how many cuts after it, the number of its first line, and how many pairs.
    OddHandle(u32, u64, u32),
    /// An odd cut's pair, in the same way, and how many pairs after it.
    Pair(u32, u64, u32),
    /// A tree on the path.
    Tree,
    End,
    /// Duals of a leaf: the number of its first line, and how many lines are to come of cities, cuts and conditions.
    Duals(u64, u32, u32, u32),
}

/// How far a text has been read: what it said so far, as far as that is still needed.
#[derive(Debug, Drop)]
pub(crate) struct Progress {
    pub(crate) purpose: Purpose,
    pub(crate) stage: Stage,
    pub(crate) long: u64,
    pub(crate) bound: u64,
    pub(crate) cuts: Vec<Cut>,
    pub(crate) handle: Option<CitySet>,
    pub(crate) teeth: Vec<CitySet>,
    pub(crate) pairs: Vec<(u32, u32)>,
    pub(crate) path: MarkedPath,
    pub(crate) cities: Vec<(u32, i64)>,
    pub(crate) cut_duals: Vec<(u32, u64)>,
    pub(crate) condition_duals: Vec<(u32, u64)>,
}

impl Progress {
    /// Before the first line of a text for n cities.
    pub(crate) fn new(alloc: Global, n: u32, purpose: Purpose) -> Progress
        ensures purpose { result.purpose ≡ purpose }
        ensures stage { stage_of result ≡ wants_title }
        ensures stands { Stands n result }
    {
        Progress {
            purpose,
            stage: Stage::Title,
            long: 0,
            bound: 0,
            cuts: Vec::new(alloc),
            handle: None,
            teeth: Vec::new(alloc),
            pairs: Vec::new(alloc),
            path: MarkedPath::new(alloc, n),
            cities: Vec::new(alloc),
            cut_duals: Vec::new(alloc),
            condition_duals: Vec::new(alloc),
        }
    }

    /// Takes the first line.
    pub(crate) fn on_title(
        &mut self,
        instance: &Instance,
        at: u64,
        item: Item,
    ) -> Result<Option<Part>, Trouble>
        requires { IsOf instance.now.n self.old }
        ensures goes { Goes instance.now.n result self.new (spec.on_title at (said item)) }
        ensures same { self.new.purpose ≡ self.old.purpose }
        ensures says { IfOk result (λ o. o ≡ None) }
    {
        let Item::Cert(version) = item else {
            return Err(Trouble::Refused(1, at));
        };
        self.stage = Stage::Size(version);
        Ok(None)
    }

    /// Takes a line where the number of cities is wanted.
    pub(crate) fn on_size(
        &mut self,
        instance: &Instance,
        version: u32,
        at: u64,
        item: Item,
    ) -> Result<Option<Part>, Trouble>
        requires { IsOf instance.now.n self.old }
        ensures goes { Goes instance.now.n result self.new (spec.on_size (tests_by self.old.purpose instance.now) version at (said item)) }
        ensures same { self.new.purpose ≡ self.old.purpose }
        ensures says { IfOk result (λ o. o ≡ None) }
    {
        let Item::N(cities) = item else {
            return Err(Trouble::Refused(1, at));
        };
        if cities != instance.n() {
            return Err(Trouble::Refused(2, at));
        }
        self.stage = Stage::Length(version);
        Ok(None)
    }

    /// Takes a line where the length is wanted. In a text of the first version it is the bound too.
    pub(crate) fn on_length(
        &mut self,
        instance: &Instance,
        version: u32,
        at: u64,
        item: Item,
    ) -> Result<Option<Part>, Trouble>
        requires { IsOf instance.now.n self.old }
        ensures goes { Goes instance.now.n result self.new (spec.on_length version at (said item)) }
        ensures same { self.new.purpose ≡ self.old.purpose }
        ensures says { IfOk result (λ o. o ≡ None) }
    {
        let Item::Length(long) = item else {
            return Err(Trouble::Refused(1, at));
        };
        self.long = long;
        self.bound = long;
        self.stage = if version == 1 {
            Stage::Tour
        } else {
            Stage::Bound
        };
        Ok(None)
    }

    /// Takes a line where the bound is wanted.
    pub(crate) fn on_bound(
        &mut self,
        instance: &Instance,
        at: u64,
        item: Item,
    ) -> Result<Option<Part>, Trouble>
        requires { IsOf instance.now.n self.old }
        ensures goes { Goes instance.now.n result self.new (spec.on_bound (tests_by self.old.purpose instance.now) self.old.long at (said item)) }
        ensures same { self.new.purpose ≡ self.old.purpose }
        ensures says { IfOk result (λ o. o ≡ None) }
    {
        let Item::Bound(bound) = item else {
            return Err(Trouble::Refused(1, at));
        };
        if bound >= self.long {
            return Err(Trouble::Refused(11, at));
        }
        self.bound = bound;
        self.stage = Stage::Tour;
        Ok(None)
    }

    /// Takes a line where the tour is wanted.
    pub(crate) fn on_tour(
        &mut self,
        alloc: Global,
        instance: &Instance,
        at: u64,
        item: Item,
    ) -> Result<Option<Part>, Trouble>
        requires { IsOf instance.now.n self.old }
        ensures goes { Goes instance.now.n result self.new (spec.on_tour (tests_by self.old.purpose instance.now) self.old.long self.old.bound at (said item)) }
        ensures same { self.new.purpose ≡ self.old.purpose }
        ensures says { IfOk result (λ o. parts_in o ≡ parts.tour_says (said item)) }
    {
        let Item::Tour(cities) = item else {
            return Err(Trouble::Refused(1, at));
        };
        let Some(tour) = canonical_tour(alloc, instance, &cities)? else {
            return Err(Trouble::Refused(3, at));
        };
        if !has_length(instance, &tour, self.long) {
            return Err(Trouble::Refused(4, at));
        }
        self.stage = Stage::Count;
        Ok(Some(Part::Tour(tour)))
    }

    /// Takes a line where the number of cuts is wanted.
    pub(crate) fn on_count(
        &mut self,
        alloc: Global,
        instance: &Instance,
        at: u64,
        item: Item,
    ) -> Result<Option<Part>, Trouble>
        requires { IsOf instance.now.n self.old }
        ensures goes { Goes instance.now.n result self.new (spec.on_count (tests_by self.old.purpose instance.now) self.old.long self.old.bound at (said item)) }
        ensures same { self.new.purpose ≡ self.old.purpose }
        ensures says { IfOk result (λ o. o ≡ None) }
    {
        let Item::Cuts(many) = item else {
            return Err(Trouble::Refused(1, at));
        };
        self.cuts.clear();
        self.cuts_on(alloc, instance, many)
    }

    /// Goes on with the cuts that are left, or with the tree, whose root has the fixed pairs.
    fn cuts_on(
        &mut self,
        alloc: Global,
        instance: &Instance,
        left: u32,
    ) -> Result<Option<Part>, Trouble>
        requires { IsOf instance.now.n self.old }
        ensures goes { Goes instance.now.n result self.new (spec.go (spec.cuts_on (tests_by self.old.purpose instance.now) (head self.old) left)) }
        ensures same { self.new.purpose ≡ self.old.purpose }
        ensures says { IfOk result (λ o. o ≡ None) }
    {
        if left != 0 {
            self.stage = Stage::Cut(left - 1);
            return Ok(None);
        }
        self.path = MarkedPath::root(alloc, instance.n(), instance.fixed())?;
        self.stage = Stage::Tree;
        Ok(None)
    }

    /// Adds a cut.
    pub(crate) fn add(
        &mut self,
        alloc: Global,
        instance: &Instance,
        left: u32,
        cut: Cut,
    ) -> Result<Option<Part>, Trouble>
        requires of { IsOf instance.now.n self.old }
        requires cut { IsCut instance.now.n cut }
        ensures goes { Goes instance.now.n result self.new (spec.go (spec.cuts_on (tests_by self.old.purpose instance.now) (spec.with_cut (head self.old) (listed cut)) left)) }
        ensures same { self.new.purpose ≡ self.old.purpose }
        ensures says { IfOk result (λ o. o ≡ None) }
    {
        self.cuts.push(cut)?;
        self.cuts_on(alloc, instance, left)
    }

    /// Takes a line where a cut is wanted.
    pub(crate) fn on_cut(
        &mut self,
        alloc: Global,
        instance: &Instance,
        left: u32,
        at: u64,
        item: Item,
    ) -> Result<Option<Part>, Trouble>
        requires of { IsOf instance.now.n self.old }
        requires fits { fits instance.now.n (said item) ≡ true }
        ensures goes { Goes instance.now.n result self.new (spec.on_cut (tests_by self.old.purpose instance.now) (head self.old) left at (said item)) }
        ensures same { self.new.purpose ≡ self.old.purpose }
        ensures says { IfOk result (λ o. o ≡ None) }
    {
        match item {
            Item::Subtour(set) => {
                let set = city_set(alloc, instance.n(), set)?;
                let Some(cut) = subtour(alloc, set)? else {
                    return Err(Trouble::Refused(5, at));
                };
                self.add(alloc, instance, left, cut)
            }
            Item::Comb(teeth) => {
                self.stage = Stage::Handle(left, at, teeth);
                Ok(None)
            }
            Item::Odd(pairs) => {
                self.stage = Stage::OddHandle(left, at, pairs);
                Ok(None)
            }
            _ => Err(Trouble::Refused(1, at)),
        }
    }

    /// Takes a line where the handle of a comb is wanted.
    pub(crate) fn on_handle(
        &mut self,
        alloc: Global,
        instance: &Instance,
        left: u32,
        from: u64,
        teeth: u32,
        at: u64,
        item: Item,
    ) -> Result<Option<Part>, Trouble>
        requires of { IsOf instance.now.n self.old }
        requires fits { fits instance.now.n (said item) ≡ true }
        ensures goes { Goes instance.now.n result self.new (spec.on_handle (tests_by self.old.purpose instance.now) (head self.old) left from teeth at (said item)) }
        ensures same { self.new.purpose ≡ self.old.purpose }
        ensures says { IfOk result (λ o. o ≡ None) }
    {
        let Item::Handle(set) = item else {
            return Err(Trouble::Refused(1, at));
        };
        self.handle = Some(city_set(alloc, instance.n(), set)?);
        self.teeth.clear();
        self.teeth_on(alloc, instance, from, left, teeth)
    }

    /// Takes a line where a tooth of a comb is wanted.
    pub(crate) fn on_tooth(
        &mut self,
        alloc: Global,
        instance: &Instance,
        left: u32,
        from: u64,
        more: u32,
        at: u64,
        item: Item,
    ) -> Result<Option<Part>, Trouble>
        requires of { IsOf instance.now.n self.old }
        requires handle { IsHandle instance.now.n self.old.handle }
        requires fits { fits instance.now.n (said item) ≡ true }
        ensures goes { Goes instance.now.n result self.new (spec.on_tooth (tests_by self.old.purpose instance.now) (head self.old) left from more (handle_of self.old.handle) (teeth_of self.old.teeth.items) at (said item)) }
        ensures same { self.new.purpose ≡ self.old.purpose }
        ensures says { IfOk result (λ o. o ≡ None) }
    {
        let Item::Tooth(set) = item else {
            return Err(Trouble::Refused(1, at));
        };
        self.teeth.push(city_set(alloc, instance.n(), set)?)?;
        self.teeth_on(alloc, instance, from, left, more)
    }

    /// Goes on with the teeth of a comb that are left, or ends the comb.
    fn teeth_on(
        &mut self,
        alloc: Global,
        instance: &Instance,
        from: u64,
        left: u32,
        more: u32,
    ) -> Result<Option<Part>, Trouble>
        requires of { IsOf instance.now.n self.old }
        requires handle { IsHandle instance.now.n self.old.handle }
        ensures goes { Goes instance.now.n result self.new (spec.teeth_on (tests_by self.old.purpose instance.now) from (head self.old) left more (handle_of self.old.handle) (teeth_of self.old.teeth.items)) }
        ensures same { self.new.purpose ≡ self.old.purpose }
        ensures says { IfOk result (λ o. o ≡ None) }
    {
        if more != 0 {
            self.stage = Stage::Tooth(left, from, more - 1);
            return Ok(None);
        }
        let teeth = std::mem::replace(&mut self.teeth, Vec::new(alloc));
        match self.handle.take() {
            Some(handle) => {
                let Some(cut) = comb(alloc, handle, teeth)? else {
                    return Err(Trouble::Refused(5, from));
                };
                self.add(alloc, instance, left, cut)
            }
            None => unreachable!(),
        }
    }
}
