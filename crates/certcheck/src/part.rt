//! What a restart body says, part by part.
ghost use Rattle.std.specs.Prelude.{◌≡◌, ◌≤◌, List, [], ◌∷◌, ◌++◌, length, true, OnOk};
ghost use Rattle.verdict.specs.Parts as defs;
ghost use Rattle.certcheck.specs.Parts.{part_of};
ghost use Rattle.certcheck.specs.Keeping.{Keeps};
ghost use Rattle.certcheck.specs.Purposes.{parts_in};

use crate::purpose::Purpose;
use cyc::{CitySet, Tour};
use pricer::Closing;
use std::alloc::{AllocError, Global};
use std::collections::VecDeque;

/// The most parts that are kept: the tour, and as many nodes as a search may have.
const MOST: usize = 1_048_577;

/// A part of what a restart body says: the tour, or a node of the tree. The nodes come in preorder. Cities count from 0, and equal cuts
/// of a closing are one, in the order of cuts.
#[derive(Drop)]
pub enum Part {
    Tour(Tour),
    /// An open leaf.
    Open,
    Closed(Closing),
    /// A split by a pair: the tree where it is absent comes next, then the one where it is present.
    Edge(u32, u32),
    /// A split by a set: the tree where it is crossed twice comes next, then the one where it is crossed four times or more.
    Clique(CitySet),
}

/// The parts of a body in their order, as long as they are not too many.
#[derive(Drop)]
pub(crate) struct Parts {
    pub(crate) kept: VecDeque<Part>,
    /// Whether there were more.
    pub(crate) full: bool,
}

impl Parts {
    pub(crate) fn new(alloc: Global) -> Parts
        ensures { Keeps result [] }
    {
        Parts {
            kept: VecDeque::new(alloc),
            full: false,
        }
    }

    /// Keeps the part that a line says, if any, where the text is read as a restart body. Of a proof nothing is kept.
    pub(crate) fn put(&mut self, purpose: Purpose, part: Option<Part>) -> Result<(), AllocError>
        ensures { OnOk result (purpose ≡ Purpose.Resume → (said : List defs.Part) → Keeps self.old said → Keeps self.new (said ++ parts_in part)) }
    {
        match purpose {
            Purpose::Verify => Ok(()),
            Purpose::Resume => self.put_any(part),
        }
    }

    /// Keeps a part, if there is one.
    fn put_any(&mut self, part: Option<Part>) -> Result<(), AllocError>
        ensures { OnOk result ((said : List defs.Part) → Keeps self.old said → Keeps self.new (said ++ parts_in part)) }
    {
        match part {
            Some(part) => self.keep(part),
            None => Ok(()),
        }
    }

    fn keep(&mut self, part: Part) -> Result<(), AllocError>
        ensures { OnOk result ((said : List defs.Part) → Keeps self.old said → Keeps self.new (said ++ part_of part ∷ [])) }
    {
        if self.kept.len() < MOST {
            self.kept.push_back(part)?;
        } else {
            self.full = true;
        }
        Ok(())
    }
}
