//! Cuts that a node's relaxation no longer needs.
//!
//! A row whose slack is basic has no dual and takes no part in the basis, but costs time at each pivot. A cut whose row was so
//! for three solves on end is taken off, where such cuts are more than a seventh of the rows (Applegate, Bixby, Chvátal and
//! Cook, "The Traveling Salesman Problem", 2006, chapter 12).
use nodelp::NodeLp;
use simplex::Lp;
use std::alloc::{AllocError, Global};

/// After so many solves on end a slack cut is old.
const OLD: u32 = 3;

/// Old cuts are taken off where the rows are fewer than so many times as many.
const SHARE: usize = 7;

/// For how many solves on end the slack of each row has been basic.
#[derive(Drop)]
pub(crate) struct Ages {
    ages: Vec<u32>,
}

impl Ages {
    /// The ages of rows that were not solved yet.
    pub(crate) fn new(alloc: Global) -> Ages {
        Ages {
            ages: Vec::new(alloc),
        }
    }

    /// The age of a row.
    fn of(&self, row: usize) -> u32 {
        self.ages.get(row).copied().unwrap_or(0)
    }

    /// Counts a solve. O(rows).
    pub(crate) fn count(&mut self, lp: &Lp) -> Result<(), AllocError> {
        let rows = lp.rows().len();
        if self.ages.len() < rows {
            self.ages.resize(rows, 0)?;
        }
        let mut row: usize = 0;
        for age in self.ages.iter_mut() {
            *age = if lp.is_slack_basic(row) {
                age.saturating_add(1)
            } else {
                0
            };
            row = row.wrapping_add(1);
        }
        Ok(())
    }

    /// Which cuts of a node are not old, in their order, where many are old; else none. O(cuts).
    pub(crate) fn kept(
        &self,
        alloc: Global,
        node: &NodeLp,
    ) -> Result<Option<Vec<bool>>, AllocError> {
        let mut kept = Vec::with_capacity(alloc, node.cuts().len())?;
        let mut old: usize = 0;
        for (_, row) in node.cuts() {
            let is_old = self.of(*row as usize) >= OLD;
            kept.push(!is_old)?;
            if is_old {
                old = old.saturating_add(1);
            }
        }
        if old.saturating_mul(SHARE) > node.lp().rows().len() {
            return Ok(Some(kept));
        }
        Ok(None)
    }
}
