//! What restart bodies have beside proofs: parts that are kept, open leaves, and closed ones with equal cuts as one.
ghost use Rattle.std.specs.Prelude.{◌≡◌, IfOk, [], ◌∷◌, length};
ghost use Rattle.certdef.specs.Items.{open_line};
ghost use Rattle.certdef.specs.Verdicts as spec;
ghost use Rattle.verdict.specs.Bodies.{resumer};
ghost use Rattle.verdict.specs.Parts as parts;
ghost use Rattle.certtests.specs.Duals.{AreDuals};
ghost use Rattle.certcheck.specs.Paths.{later};
ghost use Rattle.certcheck.specs.Purposes.{tests_by, parts_in};
ghost use Rattle.certcheck.specs.Stages.{head, duals, open_duals, IsOf, Goes};

use crate::answer::Trouble;
use crate::part::Part;
use crate::progress::Progress;
use crate::purpose::Purpose;
use certtests::closing_if_enough;
use cyc::CitySet;
use std::alloc::{AllocError, Global};
use tspinst::Instance;

impl Progress {
    /// The part that a split by a set is, which a body says.
    pub(crate) fn clique_part(
        &self,
        alloc: Global,
        set: &CitySet,
    ) -> Result<Option<Part>, AllocError>
        ensures { IfOk result (λ o. self.now.purpose ≡ Purpose.Resume → parts_in o ≡ parts.clique set.now.cities ∷ []) }
    {
        match self.purpose {
            Purpose::Verify => Ok(None),
            Purpose::Resume => Ok(Some(Part::Clique(set.copy(alloc)?))),
        }
    }

    /// Takes an open leaf.
    pub(crate) fn open(
        &mut self,
        alloc: Global,
        instance: &Instance,
        at: u64,
    ) -> Result<Option<Part>, Trouble>
        requires of { IsOf instance.now.n self.old }
        ensures goes { Goes instance.now.n result self.new (spec.on_tree (tests_by self.old.purpose instance.now) (head self.old) self.old.path.conditions (later self.old.path.conditions) at open_line) }
        ensures same { self.new.purpose ≡ self.old.purpose }
        ensures says { IfOk result (λ o. parts_in o ≡ parts.opened ∷ []) }
    {
        match self.purpose {
            Purpose::Verify => Err(Trouble::Refused(8, at)),
            Purpose::Resume => {
                self.end_tree(alloc, instance)?;
                Ok(Some(Part::Open))
            }
        }
    }

    /// Closes a leaf of a restart body.
    pub(crate) fn close_body(
        &mut self,
        alloc: Global,
        instance: &Instance,
        from: u64,
    ) -> Result<Option<Part>, Trouble>
        requires of { IsOf instance.now.n self.old }
        requires duals { AreDuals (length self.old.cuts.items) self.old.path.conditions 0 0 (duals self.old) }
        ensures goes { Goes instance.now.n result self.new (spec.duals_on (resumer instance.now) (head self.old) (later self.old.path.conditions) (open_duals self.old from) 0 0 0) }
        ensures same { self.new.purpose ≡ self.old.purpose }
        ensures says { IfOk result (λ o. parts_in o ≡ parts.leaf_says instance.now.n (head self.old) (duals self.old) 0 0 0) }
    {
        let Some(closing) = closing_if_enough(
            alloc,
            instance,
            self.bound,
            &self.cuts,
            self.path.path(),
            &self.cities,
            &self.cut_duals,
            &self.condition_duals,
        )?
        else {
            return Err(Trouble::Refused(7, from));
        };
        self.end_tree(alloc, instance)?;
        Ok(Some(Part::Closed(closing)))
    }
}
