//! The lines of an odd cut.
ghost use Rattle.std.specs.Prelude.{◌≡◌, IfOk, true};
ghost use Rattle.certdef.specs.Items.{fits};
ghost use Rattle.certdef.specs.Verdicts as spec;
ghost use Rattle.certline.specs.Said.{said};
ghost use Rattle.certcheck.specs.Purposes.{tests_by};
ghost use Rattle.certcheck.specs.Stages.{head, handle_of, pairs_from, IsHandle, IsOf, Goes};

use crate::answer::Trouble;
use crate::following::may_follow_pair;
use crate::part::Part;
use crate::progress::{Progress, Stage};
use certline::Item;
use certtests::{city_set, odd};
use std::alloc::Global;
use tspinst::Instance;

impl Progress {
    /// Takes a line where the handle of an odd cut is wanted.
    pub(crate) fn on_odd_handle(
        &mut self,
        alloc: Global,
        instance: &Instance,
        left: u32,
        from: u64,
        pairs: u32,
        at: u64,
        item: Item,
    ) -> Result<Option<Part>, Trouble>
        requires of { IsOf instance.now.n self.old }
        requires fits { fits instance.now.n (said item) ≡ true }
        ensures goes { Goes instance.now.n result self.new (spec.on_odd_handle (tests_by self.old.purpose instance.now) (head self.old) left from pairs at (said item)) }
        ensures same { self.new.purpose ≡ self.old.purpose }
        ensures says { IfOk result (λ o. o ≡ None) }
    {
        let Item::Handle(set) = item else {
            return Err(Trouble::Refused(1, at));
        };
        self.handle = Some(city_set(alloc, instance.n(), set)?);
        self.pairs.clear();
        self.pairs_on(alloc, instance, from, left, pairs)
    }

    /// Takes a line where a pair of an odd cut is wanted.
    pub(crate) fn on_pair(
        &mut self,
        alloc: Global,
        instance: &Instance,
        left: u32,
        from: u64,
        more: u32,
        at: u64,
        item: Item,
    ) -> Result<Option<Part>, Trouble>
        requires of { IsOf instance.now.n self.old }
        requires handle { IsHandle instance.now.n self.old.handle }
        requires fits { fits instance.now.n (said item) ≡ true }
        ensures goes { Goes instance.now.n result self.new (spec.on_pair (tests_by self.old.purpose instance.now) (head self.old) left from more (handle_of self.old.handle) (pairs_from self.old.pairs.items) at (said item)) }
        ensures same { self.new.purpose ≡ self.old.purpose }
        ensures says { IfOk result (λ o. o ≡ None) }
    {
        let Item::Pair(u, v) = item else {
            return Err(Trouble::Refused(1, at));
        };
        let (u, v) = (u - 1, v - 1);
        if !may_follow_pair(&self.pairs, u, v) {
            return Err(Trouble::Refused(1, at));
        }
        self.pairs.push((u, v))?;
        self.pairs_on(alloc, instance, from, left, more)
    }

    /// Goes on with the pairs of an odd cut that are left, or ends it.
    fn pairs_on(
        &mut self,
        alloc: Global,
        instance: &Instance,
        from: u64,
        left: u32,
        more: u32,
    ) -> Result<Option<Part>, Trouble>
        requires of { IsOf instance.now.n self.old }
        requires handle { IsHandle instance.now.n self.old.handle }
        ensures goes { Goes instance.now.n result self.new (spec.pairs_on (tests_by self.old.purpose instance.now) from (head self.old) left more (handle_of self.old.handle) (pairs_from self.old.pairs.items)) }
        ensures same { self.new.purpose ≡ self.old.purpose }
        ensures says { IfOk result (λ o. o ≡ None) }
    {
        if more != 0 {
            self.stage = Stage::Pair(left, from, more - 1);
            return Ok(None);
        }
        let pairs = std::mem::replace(&mut self.pairs, Vec::new(alloc));
        match self.handle.take() {
            Some(handle) => {
                let Some(cut) = odd(alloc, handle, pairs)? else {
                    return Err(Trouble::Refused(5, from));
                };
                self.add(alloc, instance, left, cut)
            }
            None => unreachable!(),
        }
    }
}
