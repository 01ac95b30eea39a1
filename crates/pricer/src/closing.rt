//! Closings, and what work on a node reports.

ghost use Rattle.std.specs.Prelude.{◌≡◌, IfOk};

use branchx::Branch;
use cutform::Cut;
use std::alloc::{AllocError, Global};
use std::marker::Model;

/// The whole-number duals that close a node, in units of 2^-20 of a length: of each city, of some cuts, and of some
/// conditions on sets, each by its depth on the node's path, from 1 on. Contracts see the three lists.
#[derive(Drop)]
pub struct Closing {
    city: Vec<i64>,
    cuts: Vec<(Cut, u64)>,
    conds: Vec<(u32, u64)>,
}

impl Model for Closing {
    ghost use Rattle.tspdef.specs.Closings as defs;

    ghost Value = { defs.Closing };

    ghost view = { λ c. record { city = c.city.items; cuts = c.cuts.items; conds = c.conds.items } };
}

impl Closing {
    /// The closing of three lists.
    pub fn new(city: Vec<i64>, cuts: Vec<(Cut, u64)>, conds: Vec<(u32, u64)>) -> Closing
        ensures { result ≡ record { city = city.items; cuts = cuts.items; conds = conds.items } }
    {
        Closing { city, cuts, conds }
    }

    /// The dual of each city.
    pub fn city(&self) -> &[i64]
        ensures { result.now ≡ self.now.city }
    {
        &self.city
    }

    /// Cuts, each with its dual.
    pub fn cuts(&self) -> &[(Cut, u64)]
        ensures { result.now ≡ self.now.cuts }
    {
        &self.cuts
    }

    /// Depths of conditions on sets, each with its dual.
    pub fn conds(&self) -> &[(u32, u64)]
        ensures { result.now ≡ self.now.conds }
    {
        &self.conds
    }

    /// The three lists, given back.
    pub fn into_parts(self) -> (Vec<i64>, Vec<(Cut, u64)>, Vec<(u32, u64)>)
        ensures { self ≡ record { city = result.0.items; cuts = result.1.items; conds = result.2.items } }
    {
        let Closing { city, cuts, conds } = self;
        (city, cuts, conds)
    }

    /// An equal closing.
    pub fn copy(&self, alloc: Global) -> Result<Closing, AllocError>
        ensures { IfOk result (λ c. c ≡ self.now) }
    {
        Ok(Closing {
            city: Vec::from_slice(alloc, &self.city)?,
            cuts: copy_cuts(alloc, &self.cuts)?,
            conds: Vec::from_slice(alloc, &self.conds)?,
        })
    }
}

/// What work on a node found: duals that close it, or by what to split it.
#[derive(Drop)]
pub enum Report {
    Closed(Closing),
    Split(Branch),
}

impl Report {
    /// An equal report.
    pub fn copy(&self, alloc: Global) -> Result<Report, AllocError>
        ensures { IfOk result (λ r. r ≡ self.now) }
    {
        Ok(match self {
            Report::Closed(closing) => Report::Closed(closing.copy(alloc)?),
            Report::Split(branch) => Report::Split(branch.copy(alloc)?),
        })
    }
}

fn copy_cuts(alloc: Global, cuts: &[(Cut, u64)]) -> Result<Vec<(Cut, u64)>, AllocError>
    ensures { IfOk result (λ v. v.items ≡ cuts.now) }
{
    let mut copies = Vec::with_capacity(alloc, cuts.len())?;
    for (cut, dual) in cuts {
        copies.push((cut.copy(alloc)?, *dual))?;
    }
    Ok(copies)
}
