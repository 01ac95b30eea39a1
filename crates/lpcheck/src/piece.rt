//! What a column has to do with a step of a row's dual.
ghost use Rattle.std.specs.Prelude.{◌^◌};
ghost use Rattle.lpcheck.specs.Sizes.{IsWithin};

/// A column that the row meets: its kind, its reduced cost and its coefficient.
#[derive(Clone, Copy)]
pub struct Piece {
    pub must: bool,
    pub r: i128,
    pub coef: u16,
    ghost size: { IsWithin (2 ^ 104) r },
}
