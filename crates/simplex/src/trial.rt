//! Trials of a program's columns.
ghost use Rattle.std.specs.Prelude.{◌≤ℤ◌, IfOk};

use crate::engine::{End, Engine, Stand};
use lpcheck::Cells;
use std::alloc::{AllocError, Global};

/// A copy of a program as its newest solve left it, on which to try what it would cost to hold a column at one of its bounds. What it
/// says is a hint, as are the engine's numbers.
#[derive(Drop)]
pub struct Trial<'a> {
    engine: Engine,
    stand: Stand,
    table: &'a [Cells],
}

impl<'a> Trial<'a> {
    /// A copy of an engine over the table of its program.
    pub(crate) fn new(
        alloc: Global,
        engine: &Engine,
        table: &'a [Cells],
    ) -> Result<Trial<'a>, AllocError> {
        let engine = engine.copy(alloc)?;
        let stand = engine.stand(alloc)?;
        Ok(Trial {
            engine,
            stand,
            table,
        })
    }

    /// By how many units the program costs more where a basic column is held at 0, or at one length, by at most so many pivots, and 64; `most`
    /// where it costs more than that, and where no values meet the rows.
    pub fn gain(
        &mut self,
        column: usize,
        at_one: bool,
        most: i128,
        pivots: u32,
    ) -> Result<i128, AllocError>
        ensures { IfOk result (λ gain. gain ≤ℤ most) }
    {
        let before = self.engine.cost();
        let end = self.engine.hold(self.table, column, at_one, pivots)?;
        self.engine.go_back(&self.stand);
        match end {
            End::NoValues => Ok(most),
            End::Cost(cost) => Ok(cost.saturating_sub(before).min(most)),
        }
    }
}
