//! A row's dual.
ghost use Rattle.std.specs.Prelude.{◌^◌};
ghost use Rattle.lpcheck.specs.Sizes.{IsWithin};

use crate::Sense;

/// What a step of a row's dual goes by.
#[derive(Clone, Copy)]
pub struct Place {
    pub sense: Sense,
    pub rhs: u32,
    pub y: i64,
    ghost size: { IsWithin (2 ^ 62) y },
}
